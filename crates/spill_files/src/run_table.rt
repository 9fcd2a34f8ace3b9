//! The table of runs, in SQL. What holds a connection, a transaction or rows is small, since its check is dear.

use crate::Refused;
use sqlite::types::ValueRef;
use sqlite::{
    Connection, File, FileStore, Options, Row, Rows, Statement, Transaction, Unknown, params,
};
use std::rt::HostRuntime;

/// What a database stands in.
pub(crate) type Files = FileStore<File>;

/// An open database.
pub(crate) type Database = Connection<Files>;

/// Opens a database that is not there yet.
pub(crate) fn open(rt: &HostRuntime, path: &str) -> Result<Database, Refused> {
    let files = match sqlite_std_file::open(rt, path, Unknown) {
        Ok(files) => files,
        Err(_) => return Err(Refused),
    };
    let options = Options {
        cache_pages: 2000,
        spill_pages: 2000,
        checkpoint_frames: 1000,
        seed: 1,
    };
    match Connection::open_files(rt.alloc(), files, options) {
        Ok(database) => Ok(database),
        Err(_) => Err(Refused),
    }
}

/// Makes the table, and an index over the first rows of its runs while it is empty.
pub(crate) fn make(transaction: &mut Transaction<'_, Files>) -> Result<(), Refused> {
    execute(
        transaction,
        "CREATE TABLE runs (first BLOB NOT NULL, rows BLOB NOT NULL)",
    )?;
    execute(transaction, "CREATE INDEX by_first ON runs (first)")
}

fn execute(transaction: &mut Transaction<'_, Files>, sql: &str) -> Result<(), Refused> {
    match transaction.execute(sql, &[]) {
        Ok(_) => Ok(()),
        Err(_) => Err(Refused),
    }
}

/// What `insert` runs.
pub(crate) fn insertion(transaction: &mut Transaction<'_, Files>) -> Result<Statement, Refused> {
    match transaction.prepare("INSERT INTO runs (first, rows) VALUES (?1, ?2)") {
        Ok(statement) => Ok(statement),
        Err(_) => Err(Refused),
    }
}

/// Inserts a run, with its first row.
pub(crate) fn insert(
    transaction: &mut Transaction<'_, Files>,
    statement: &Statement,
    first: &[u8],
    rows: &[u8],
) -> Result<(), Refused> {
    match transaction.execute_prepared(statement, params![first, rows]) {
        Ok(_) => Ok(()),
        Err(_) => Err(Refused),
    }
}

/// The runs in the order of their first rows.
pub(crate) fn in_order<'a>(
    transaction: &'a mut Transaction<'_, Files>,
) -> Result<Rows<'a, Files>, Refused> {
    match transaction.query("SELECT rows FROM runs ORDER BY first", &[]) {
        Ok(rows) => Ok(rows),
        Err(_) => Err(Refused),
    }
}

/// The next run. None behind the last.
pub(crate) fn next<'a>(rows: &'a mut Rows<'_, Files>) -> Result<Option<&'a Row>, Refused> {
    match rows.next() {
        Ok(row) => Ok(row),
        Err(_) => Err(Refused),
    }
}

/// The bytes of a run.
pub(crate) fn bytes_of(row: &Row) -> Result<&[u8], Refused> {
    match row.get_ref(0) {
        Ok(ValueRef::Blob(bytes)) => Ok(bytes),
        _ => Err(Refused),
    }
}
