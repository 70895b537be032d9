//! The texts that make the tables and indexes of a hall, in the order in which they are run, and of each table those that name all its
//! columns: the text that reads a row of it, by which a hall is known again, and the one that adds a row.

// Makes the table `hall`.
const CREATE_HALL: &str =
    "CREATE TABLE hall (one INTEGER PRIMARY KEY CHECK (one = 1), schema INTEGER NOT NULL, machine INTEGER NOT NULL, boot INTEGER NOT NULL, orders INTEGER NOT NULL) STRICT";

/// The schema and the last numbers.
pub const FIND_NUMBERS: &str = "SELECT schema, machine, boot, orders FROM hall";

/// The row of a new hall.
pub const FIRST_NUMBERS: &str =
    "INSERT INTO hall (one, schema, machine, boot, orders) VALUES (1, 2, 0, 0, 0)";

// Makes the table `operators`.
const CREATE_OPERATORS: &str =
    "CREATE TABLE operators (name TEXT PRIMARY KEY, role INTEGER NOT NULL, digest BLOB NOT NULL UNIQUE, enabled INTEGER NOT NULL) STRICT";

/// The operator with a name.
pub const FIND_OPERATOR: &str =
    "SELECT name, role, digest, enabled FROM operators WHERE name = ?1 ORDER BY name";

/// A new operator.
pub const ADD_OPERATOR: &str =
    "INSERT INTO operators (name, role, digest, enabled) VALUES (?1, ?2, ?3, ?4)";

// Makes the table `pools`.
const CREATE_POOLS: &str = "CREATE TABLE pools (name TEXT PRIMARY KEY) STRICT";

/// The pool with a name.
pub const FIND_POOL: &str = "SELECT name FROM pools WHERE name = ?1 ORDER BY name";

/// A new pool.
pub const ADD_POOL: &str = "INSERT INTO pools (name) VALUES (?1)";

// Makes the table `members`.
const CREATE_MEMBERS: &str =
    "CREATE TABLE members (pool TEXT NOT NULL REFERENCES pools (name), operator TEXT NOT NULL REFERENCES operators (name), PRIMARY KEY (pool, operator)) STRICT";

/// The member with a pool and an operator.
pub const FIND_MEMBER: &str =
    "SELECT pool, operator FROM members WHERE pool = ?1 AND operator = ?2 ORDER BY pool, operator";

/// A new member.
pub const ADD_MEMBER: &str = "INSERT INTO members (pool, operator) VALUES (?1, ?2)";

// Makes the table `images`.
const CREATE_IMAGES: &str =
    "CREATE TABLE images (name TEXT PRIMARY KEY, arch INTEGER NOT NULL, kernel TEXT NOT NULL, initrd TEXT NOT NULL, args TEXT NOT NULL) STRICT";

/// The image with a name.
pub const FIND_IMAGE: &str =
    "SELECT name, arch, kernel, initrd, args FROM images WHERE name = ?1 ORDER BY name";

/// A new image.
pub const ADD_IMAGE: &str =
    "INSERT INTO images (name, arch, kernel, initrd, args) VALUES (?1, ?2, ?3, ?4, ?5)";

// Makes the table `lives`.
const CREATE_LIVES: &str =
    "CREATE TABLE lives (arch INTEGER PRIMARY KEY, image TEXT NOT NULL REFERENCES images (name)) STRICT";

/// The live image of an architecture.
pub const FIND_LIVE: &str = "SELECT arch, image FROM lives WHERE arch = ?1";

/// The live image of an architecture that had none.
pub const ADD_LIVE: &str = "INSERT INTO lives (arch, image) VALUES (?1, ?2)";

// Makes the table `machines`.
const CREATE_MACHINES: &str =
    "CREATE TABLE machines (id INTEGER PRIMARY KEY, arch INTEGER NOT NULL, uuid BLOB UNIQUE, pool TEXT NOT NULL REFERENCES pools (name), status INTEGER NOT NULL, owner TEXT REFERENCES operators (name), image TEXT REFERENCES images (name), tests INTEGER NOT NULL, back INTEGER, locked INTEGER NOT NULL, version INTEGER NOT NULL, deadline INTEGER, boot INTEGER, boots INTEGER NOT NULL, waiting INTEGER) STRICT";

/// The machine with a number.
pub const FIND_MACHINE: &str =
    "SELECT id, arch, uuid, pool, status, owner, image, tests, back, locked, version, deadline, boot, boots, waiting FROM machines WHERE id = ?1";

/// All machines.
pub const LIST_MACHINES: &str =
    "SELECT id, arch, uuid, pool, status, owner, image, tests, back, locked, version, deadline, boot, boots, waiting FROM machines ORDER BY id";

/// A new machine.
pub const ADD_MACHINE: &str =
    "INSERT INTO machines (id, arch, uuid, pool, status, owner, image, tests, back, locked, version, deadline, boot, boots, waiting) VALUES (?1, ?2, ?3, ?4, ?5, ?6, ?7, ?8, ?9, ?10, ?11, ?12, ?13, ?14, ?15)";

// Makes the table `interfaces`.
const CREATE_INTERFACES: &str =
    "CREATE TABLE interfaces (mac BLOB PRIMARY KEY, machine INTEGER NOT NULL REFERENCES machines (id) ON DELETE CASCADE) STRICT";

/// The interface with an address.
pub const FIND_INTERFACE: &str = "SELECT mac, machine FROM interfaces WHERE mac = ?1 ORDER BY mac";

/// A new interface.
pub const ADD_INTERFACE: &str = "INSERT INTO interfaces (mac, machine) VALUES (?1, ?2)";

// Makes the table `boots`.
const CREATE_BOOTS: &str =
    "CREATE TABLE boots (number INTEGER PRIMARY KEY, machine INTEGER NOT NULL REFERENCES machines (id) ON DELETE CASCADE, purpose INTEGER NOT NULL, token BLOB NOT NULL, stage INTEGER NOT NULL) STRICT";

/// The boot with a number.
pub const FIND_BOOT: &str =
    "SELECT number, machine, purpose, token, stage FROM boots WHERE number = ?1";

/// A new boot.
pub const ADD_BOOT: &str =
    "INSERT INTO boots (number, machine, purpose, token, stage) VALUES (?1, ?2, ?3, ?4, ?5)";

// Makes the table `orders`.
const CREATE_ORDERS: &str =
    "CREATE TABLE orders (number INTEGER PRIMARY KEY, machine INTEGER NOT NULL REFERENCES machines (id) ON DELETE CASCADE, kind INTEGER NOT NULL, stage INTEGER NOT NULL) STRICT";

/// The order with a number.
pub const FIND_ORDER: &str = "SELECT number, machine, kind, stage FROM orders WHERE number = ?1";

/// A new order.
pub const ADD_ORDER: &str =
    "INSERT INTO orders (number, machine, kind, stage) VALUES (?1, ?2, ?3, ?4)";

// Makes the table `receipts`.
const CREATE_RECEIPTS: &str =
    "CREATE TABLE receipts (operator TEXT NOT NULL REFERENCES operators (name), request BLOB NOT NULL, command TEXT NOT NULL, status INTEGER NOT NULL, body TEXT NOT NULL, PRIMARY KEY (operator, request)) STRICT";

/// The receipt of an operator and a key.
pub const FIND_RECEIPT: &str =
    "SELECT operator, request, command, status, body FROM receipts WHERE operator = ?1 AND request = ?2 ORDER BY operator, request";

/// A new receipt.
pub const ADD_RECEIPT: &str =
    "INSERT INTO receipts (operator, request, command, status, body) VALUES (?1, ?2, ?3, ?4, ?5)";

// Makes the table `counts`.
const CREATE_COUNTS: &str =
    "CREATE TABLE counts (pool TEXT NOT NULL, status INTEGER NOT NULL, machines INTEGER NOT NULL, PRIMARY KEY (pool, status)) STRICT";

/// All counts.
pub const LIST_COUNTS: &str = "SELECT pool, status, machines FROM counts ORDER BY pool, status";

/// The count of a pool and a status that had none.
pub const ADD_COUNT: &str = "INSERT INTO counts (pool, status, machines) VALUES (?1, ?2, ?3)";

/// Makes the index of `interfaces` on their machine.
pub const INDEX_INTERFACES: &str = "CREATE INDEX interfaces_machine ON interfaces (machine)";

/// Makes the index of `boots` on their machine.
pub const INDEX_BOOTS: &str = "CREATE INDEX boots_machine ON boots (machine)";

/// Makes the index of `orders` on their machine.
pub const INDEX_ORDERS: &str = "CREATE INDEX orders_machine ON orders (machine)";

/// Makes the table `wipes`.
pub const CREATE_WIPES: &str =
    "CREATE TABLE wipes (machine INTEGER PRIMARY KEY REFERENCES machines (id) ON DELETE CASCADE, erase INTEGER NOT NULL) STRICT";

/// How the disks of the machine with a number are erased.
pub const FIND_WIPE: &str = "SELECT machine, erase FROM wipes WHERE machine = ?1";

/// How the disks of a machine are erased.
pub const ADD_WIPE: &str = "INSERT INTO wipes (machine, erase) VALUES (?1, ?2)";

/// All tables and indexes are made by these, one after another.
pub const CREATE_ALL: &[&str] = &[
    CREATE_HALL,
    CREATE_OPERATORS,
    CREATE_POOLS,
    CREATE_MEMBERS,
    CREATE_IMAGES,
    CREATE_LIVES,
    CREATE_MACHINES,
    CREATE_INTERFACES,
    CREATE_BOOTS,
    CREATE_ORDERS,
    CREATE_RECEIPTS,
    CREATE_COUNTS,
    INDEX_INTERFACES,
    INDEX_BOOTS,
    INDEX_ORDERS,
    CREATE_WIPES,
];

/// What a file of the first schema is asked for, beside `hall`: all columns of each of its tables.
pub const READ_FIRST: &[&str] = &[
    FIND_OPERATOR,
    FIND_POOL,
    FIND_MEMBER,
    FIND_IMAGE,
    FIND_LIVE,
    FIND_MACHINE,
    FIND_INTERFACE,
    FIND_BOOT,
    FIND_ORDER,
    FIND_RECEIPT,
    LIST_COUNTS,
];

/// What a file of the second schema is asked for besides.
pub const READ_SECOND: &[&str] = &[FIND_WIPE];
