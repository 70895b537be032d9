//! Records as lines, each field with its name, `-` where it is absent.
use cases::Out;
use hall_report::ImportRow;
use hall_store::Count;
use hall_types::{
    Boot, Image, Interface, Live, MacAddress, Machine, MachineUuid, Member, Number, Numbers,
    Operator, Order, Pool, Receipt,
};
use std::fmt::Display;

/// What is printed as a line.
pub(crate) trait Row {
    fn print(&self, out: &mut Out);
}

// `, NAME VALUE`.
fn field(out: &mut Out, name: &str, value: impl Display + Drop) {
    out.show(format_args!(", {name} {value}"));
}

fn some(out: &mut Out, name: &str, value: Option<impl Display + Drop>) {
    match value {
        Some(value) => field(out, name, value),
        None => field(out, name, "-"),
    }
}

fn octets(out: &mut Out, name: &str, octets: &[u8]) {
    field(out, name, "");
    out.hex(octets);
}

fn uuid(out: &mut Out, uuid: Option<MachineUuid>) {
    match uuid {
        Some(uuid) => octets(out, "uuid", &uuid.octets()),
        None => field(out, "uuid", "-"),
    }
}

fn truth(out: &mut Out, name: &str, truth: bool) {
    field(out, name, if truth { "yes" } else { "no" });
}

fn mac(out: &mut Out, mac: MacAddress) {
    let [a, b, c, d, e, f] = mac.octets();
    out.show(format_args!("{a:02x}:{b:02x}:{c:02x}:{d:02x}:{e:02x}:{f:02x}"));
}

impl Row for Number {
    fn print(&self, out: &mut Out) {
        out.show(format_args!("number {}\n", self.get()));
    }
}

// The number of machines of a hall.
impl Row for u64 {
    fn print(&self, out: &mut Out) {
        out.show(format_args!("machines {self}\n"));
    }
}

impl Row for Machine {
    fn print(&self, out: &mut Out) {
        out.show(format_args!("machine {}, arch {}", self.id.get(), self.arch.text()));
        uuid(out, self.uuid);
        field(out, "pool", self.pool);
        field(out, "status", self.status.text());
        some(out, "owner", self.owner);
        some(out, "image", self.image);
        truth(out, "tests", self.tests);
        some(out, "back", self.back.map(|status| status.text()));
        some(out, "erase", self.erase.map(|erase| erase.text()));
        truth(out, "locked", self.locked);
        field(out, "version", self.version.get());
        some(out, "deadline", self.deadline);
        some(out, "boot", self.boot.map(|number| number.get()));
        field(out, "boots", self.boots.get());
        some(out, "waiting", self.waiting.map(|number| number.get()));
        out.push("\n");
    }
}

impl Row for Boot {
    fn print(&self, out: &mut Out) {
        let (number, machine) = (self.number.get(), self.machine.get());
        let purpose = self.purpose.text();
        out.show(format_args!("boot {number}, machine {machine}, purpose {purpose}"));
        octets(out, "token", &self.token.octets());
        out.show(format_args!(", stage {:?}\n", self.stage));
    }
}

impl Row for Order {
    fn print(&self, out: &mut Out) {
        let (number, machine) = (self.number.get(), self.machine.get());
        let (kind, stage) = (self.kind.text(), self.stage);
        out.show(format_args!("order {number}, machine {machine}, kind {kind}, stage {stage:?}\n"));
    }
}

impl Row for Operator {
    fn print(&self, out: &mut Out) {
        out.show(format_args!("operator {}, role {}", self.name, self.role.text()));
        octets(out, "digest", &self.digest.octets());
        truth(out, "enabled", self.enabled);
        out.push("\n");
    }
}

impl Row for Pool {
    fn print(&self, out: &mut Out) {
        out.show(format_args!("pool {}\n", self.name));
    }
}

impl Row for Member {
    fn print(&self, out: &mut Out) {
        out.show(format_args!("member {}, operator {}\n", self.pool, self.operator));
    }
}

impl Row for Image {
    fn print(&self, out: &mut Out) {
        out.show(format_args!("image {}, arch {}", self.name(), self.arch().text()));
        field(out, "kernel", self.kernel().text());
        field(out, "initrd", self.initrd().text());
        out.push(", args");
        for arg in self.args() {
            out.show(format_args!(" {}", arg.text()));
        }
        out.push("\n");
    }
}

impl Row for Live {
    fn print(&self, out: &mut Out) {
        out.show(format_args!("live {}, image {}\n", self.arch.text(), self.image));
    }
}

impl Row for Receipt {
    fn print(&self, out: &mut Out) {
        out.show(format_args!("receipt {}", self.operator));
        octets(out, "key", &self.key.octets());
        field(out, "status", self.status);
        field(out, "command", self.command.as_str());
        out.show(format_args!(", body {}\n", self.body.as_str()));
    }
}

impl Row for Numbers {
    fn print(&self, out: &mut Out) {
        let (machine, boot, order) = (self.machine.get(), self.boot.get(), self.order.get());
        out.show(format_args!("numbers machine {machine}, boot {boot}, order {order}\n"));
    }
}

impl Row for Interface {
    fn print(&self, out: &mut Out) {
        out.push("interface ");
        mac(out, self.mac);
        out.show(format_args!(", machine {}\n", self.machine.get()));
    }
}

impl Row for Count {
    fn print(&self, out: &mut Out) {
        let (pool, status, machines) = (self.pool, self.status.text(), self.machines);
        out.show(format_args!("count {pool}, status {status}, machines {machines}\n"));
    }
}

// A row of a file of new machines.
impl Row for ImportRow {
    fn print(&self, out: &mut Out) {
        out.push("row ");
        mac(out, self.mac);
        octets(out, "key", &self.key.octets());
        field(out, "arch", self.arch.text());
        uuid(out, self.uuid);
        out.show(format_args!(", pool {}\n", self.pool));
    }
}
