//! A database in memory that lines work on, one after the other.

use crate::commits::Commits;
use crate::comparing::{Step, done};
use crate::words::number;
use anyhow::Context;
use sqlite::{Connection, MemStore, Row, params};
use ss_keep_sql::SqlKeeper;
use std::alloc::Global;

const ADD_TEXT: &str = "INSERT INTO commits (number, changes) VALUES (?1, ?2)";

/// A database in memory.
#[derive(Drop)]
pub struct Tables {
    connection: Option<Connection<MemStore>>,
}

/// The lines of a text, each with its newline.
fn ended(alloc: Global, text: &str) -> anyhow::Result<String> {
    let mut lines = String::new(alloc);
    for line in text.split('¦') {
        if !line.is_empty() {
            lines.push_str(line)?;
            lines.push_str("\n")?;
        }
    }
    Ok(lines)
}

/// Adds a text that a query gave.
fn push_text(alloc: Global, told: &mut String, values: &Row) -> anyhow::Result<()> {
    let text: String = values.get(0)?;
    told.push_str(format!(in alloc; "{text:?} ")?.as_str())?;
    Ok(())
}

impl Tables {
    pub fn new(alloc: Global) -> anyhow::Result<Tables> {
        Ok(Tables {
            connection: Some(Connection::open_in_memory(alloc)?),
        })
    }

    /// Begins with a new database.
    pub fn renew(&mut self, alloc: Global) -> anyhow::Result<()> {
        self.connection = Some(Connection::open_in_memory(alloc)?);
        Ok(())
    }

    /// Runs statements.
    pub fn run(&mut self, sql: &str) -> anyhow::Result<()> {
        let connection = self.connection.as_mut().context("a database")?;
        connection.execute_batch(sql)?;
        Ok(())
    }

    /// Adds the text of a commit under its number.
    pub fn add(&mut self, alloc: Global, words: &str) -> anyhow::Result<()> {
        let connection = self.connection.as_mut().context("a database")?;
        let (of, text) = words.split_once(' ').context("a text")?;
        let number = i64::try_from(number(of)?)?;
        let lines = ended(alloc, text)?;
        let _commits = connection.execute(ADD_TEXT, params![number, lines.as_str()])?;
        Ok(())
    }

    /// The texts that a query gives.
    pub fn ask(&mut self, alloc: Global, sql: &str) -> anyhow::Result<String> {
        let connection = self.connection.as_mut().context("a database")?;
        let mut told = String::new(alloc);
        for values in connection.query_all(sql, &[])? {
            push_text(alloc, &mut told, &values)?;
        }
        told.push_str("and no more")?;
        Ok(told)
    }

    /// How many steps a keeper answers Ok, which then gives the database back.
    fn keep_by(
        &mut self,
        alloc: Global,
        commits: &Commits,
        mut keeper: SqlKeeper<MemStore>,
        steps: &[Step],
    ) -> anyhow::Result<usize> {
        let count = done(alloc, commits, &mut keeper, steps);
        self.connection = Some(keeper.into_connection());
        count
    }

    /// How many steps a keeper answers Ok that takes the database; or why it doesn't take it.
    pub fn keep(
        &mut self,
        alloc: Global,
        commits: &Commits,
        steps: &[Step],
    ) -> anyhow::Result<String> {
        let connection = self.connection.take().context("a database")?;
        match SqlKeeper::adopt(alloc, connection) {
            Ok(keeper) => {
                let count = self.keep_by(alloc, commits, keeper, steps)?;
                Ok(format!(in alloc; "{count} of {} done", steps.len())?)
            }
            Err((connection, fault)) => {
                self.connection = Some(connection);
                Ok(format!(in alloc; "{fault:?}")?)
            }
        }
    }
}
