//! The tables of a connection, and what is done with them.
use crate::asked::Asked;
use crate::hall::{Hall, Looked, Way};
use cases::{CaseFault, Out, Played, Player, first};
use hall_sql::SqlStore;
use play_log::admin;
use sql_tables::Migrated;
use sqlite::{Alter, Connection, Error};
use std::alloc::Global;
use std::mem;

/// The tables of a connection.
#[derive(Drop)]
pub struct Tables<S: Alter> {
    // Absent while a store has it.
    conn: Option<Connection<S>>,
    looked: Looked,
}

fn query<S: Alter>(conn: &mut Connection<S>, statement: &str) -> Result<i64, Error> {
    conn.query_row(statement, &[])?.get(0)
}

fn create<S: Alter>(conn: Connection<S>, words: &str, out: &mut Out) -> (Played, Connection<S>) {
    let (name, digest) = match admin(words) {
        Ok(admin) => admin,
        Err(fault) => return (Err(fault), conn),
    };
    match SqlStore::create(out.alloc(), conn, name, digest) {
        Ok(store) => {
            out.push("created");
            (Ok(()), store.into_connection())
        }
        Err(refused) => {
            out.fault(refused.fault as u8, refused.fault);
            (Ok(()), refused.connection)
        }
    }
}

fn open<S: Alter>(conn: Connection<S>, out: &mut Out) -> Connection<S> {
    match SqlStore::open(out.alloc(), conn) {
        Ok(store) => {
            out.push("opened");
            store.into_connection()
        }
        Err(refused) => {
            out.fault(refused.fault as u8, refused.fault);
            refused.connection
        }
    }
}

fn migrate<S: Alter>(conn: Connection<S>, out: &mut Out) -> Connection<S> {
    match SqlStore::migrate(out.alloc(), conn) {
        Ok((store, migrated)) => {
            out.push(match migrated {
                Migrated::Now => "migrated",
                Migrated::Already => "already",
            });
            store.into_connection()
        }
        Err(refused) => {
            out.fault(refused.fault as u8, refused.fault);
            refused.connection
        }
    }
}

impl<S: Alter + Drop> Tables<S> {
    pub fn new(alloc: Global, conn: Connection<S>) -> Tables<S> {
        Tables {
            conn: Some(conn),
            looked: Looked::nothing(alloc),
        }
    }

    /// The connection, if nothing has it now.
    pub fn into_connection(self) -> Option<Connection<S>> {
        self.conn
    }

    // An act on the hall of the tables.
    fn play_over(&mut self, store: SqlStore<S>, act: &str, out: &mut Out) -> Played {
        let looked = mem::replace(&mut self.looked, Looked::nothing(out.alloc()));
        let mut hall = Hall::new(store, Way::Alone, Asked::default(), looked);
        let played = hall.play(act, out);
        let (store, looked) = hall.into_parts();
        self.looked = looked;
        self.conn = store.map(SqlStore::into_connection);
        played
    }

    fn play_on_hall(&mut self, conn: Connection<S>, act: &str, out: &mut Out) -> Played {
        match SqlStore::open(out.alloc(), conn) {
            Ok(store) => self.play_over(store, act, out),
            Err(refused) => {
                self.conn = Some(refused.connection);
                out.push("unavailable");
                Ok(())
            }
        }
    }

    fn sql(&mut self, mut conn: Connection<S>, statement: &str, out: &mut Out) {
        out.push(match conn.execute(statement, &[]) {
            Ok(_) => "done",
            Err(_) => "refused",
        });
        self.conn = Some(conn);
    }

    fn query(&mut self, mut conn: Connection<S>, statement: &str, out: &mut Out) {
        match query(&mut conn, statement) {
            Ok(number) => out.show(number),
            Err(_) => out.push("refused"),
        }
        self.conn = Some(conn);
    }

    fn create(&mut self, conn: Connection<S>, words: &str, out: &mut Out) -> Played {
        let (created, conn) = create(conn, words, out);
        self.conn = Some(conn);
        created
    }
}

impl<S: Alter + Drop> Player for Tables<S> {
    fn play(&mut self, act: &str, out: &mut Out) -> Played {
        let conn = self.conn.take().ok_or(CaseFault::Unavailable)?;
        let (kind, words) = first(act);
        match kind {
            "sql" => self.sql(conn, words, out),
            "query" => self.query(conn, words, out),
            "create" => return self.create(conn, words, out),
            "open" => self.conn = Some(open(conn, out)),
            "migrate" => self.conn = Some(migrate(conn, out)),
            _ => return self.play_on_hall(conn, act, out),
        }
        Ok(())
    }
}
