//! What the program says of itself: `--help` and `--version`, for the program and for each command.

use ss_run_audit::NAME as AUDIT_NAME;
use ss_run_flat::NAME as FLAT_NAME;
use ss_run_move::Verb;
use ss_words::Name;
use std::io::{Eprint, Print};

/// The text of `--version`.
const VERSION: &str = "syncstore 0.1.0\n";

/// The text of `--help`.
const USAGE: &str = "\
syncstore: a Firefox Sync storage server (SyncStorage API 1.5)

usage: syncstore serve ADDRESS FOLDER UID ..     serves accounts from files over HTTP
       syncstore answer UID [--at N]             answers recorded messages for one account
       syncstore sync URL FILE [--newer]         syncs the device in a file with a server
       syncstore edit ACTION .. [--at N]         changes the bookmarks of a device's file
       syncstore merge                           tells what merging a device with a server's rows comes to
       syncstore flat KIND                       tells what rows of history or forms come to
       syncstore dump FOLDER UID                 writes an account as a text
       syncstore restore FOLDER UID              fills an account from such a text
       syncstore audit                           tells whether logs of an account are sound
       syncstore rehearse N S                    plays a whole exchange of two devices, and tells how it went
       syncstore COMMAND --help                  tells of a command
       syncstore --help | --version

Options may stand anywhere behind the command's name, each at most once, as --x v or --x=v; behind -- all words are
positionals. Numbers have 1 to 12 digits. With status 1 nothing was read or written.
";

const ANSWER: &str = "\
usage: syncstore answer UID [--at N]

Answers the HTTP/1.1 messages on standard input for the account UID, from an empty account on; another account is answered
401. docs/WIRE.md tells which messages are answered, and how.

  UID       a number from 1 to 4294967295, without a leading zero
  --at N    the clock counts upwards from N hundredths of a second since 1970, one for each message: 0 to 999999999999;
            without it the clock is the system's

exit status: 0 the input was read to its end, or to a message that asks to close; 1 faulty words; 2 the input failed; 3 the
output failed; 4 the input ended inside a message; 5 what came is no message, and was answered so; 6 after 1,000,000 messages;
8 no memory for the run

example: syncstore answer 7 --at 1000 < docs/samples/put-then-get.http
";

const EDIT: &str = "\
usage: syncstore edit ACTION .. [--at N]

Reads a device's file on standard input, makes one change of its bookmarks, and writes the file of the changed device. The action
new reads nothing, and writes an empty device's file.

  ACTION    new; bookmark PARENT ID TITLE URI; folder PARENT ID TITLE; separator PARENT ID; rename ID TITLE; move ID PARENT;
            delete ID. The folders that are there from the start are menu, toolbar, unfiled and mobile
  --at N    the time of the change, in hundredths of a second since 1970: 0 to 999999999999; without it the clock is read

exit status: 0 written; 1 faulty words, or no item can be so; 2 the input failed; 3 the output failed; 4 the input ended inside
the file; 5 a line is no line of a device's file, an item isn't in its place, or the edit is refused; 6 more than 268435456 bytes;
8 no memory. Unless it is 0 or 3 nothing is written.

example: syncstore edit rename abcdefghijkl 'My page' < device > changed
";

const MERGE: &str = "\
usage: syncstore merge

Reads a device's file, then a line [\"remote\",TIME,ID,PAYLOAD] for each row of a server, by id, then a further line [\"end\"], and tells
the tree that a sync would make of them: a line for each item in order with its side, the renamed and the deleted ids, and how many
records would be uploaded. docs/MERGING.md tells the lines and the rules.

exit status: 0 written; 1 faulty words; 2 the input failed; 3 the output failed; 4 the input ended too early; 5 a line is none of
these, or an item isn't in its place; 6 more than 268435456 bytes; 8 no memory. Unless it is 0 or 3 nothing is written.

example: syncstore merge < device-and-rows
";

const FLAT: &str = "\
usage: syncstore flat KIND

Reads rows of history or forms, a line [\"row\",TIME,ID,PAYLOAD] for each, in any order and as often as it comes, then a line [\"end\"],
and tells what they come to: a line [\"item\",ID,RECORD] for each record that stands, [\"gone\",ID,TIME] for each that was deleted,
[\"skipped\",ID] for each id of which a row isn't understood, each by id, and [\"end\"]. Devices that saw the same rows agree.
docs/WIRE.md tells the lines and the rules.

  KIND    history or forms

exit status: 0 written; 1 faulty words; 2 the input failed; 3 the output failed; 4 the input ended too early; 5 a line is none of these,
or stands behind the end; 6 more than 268435456 bytes; 8 no memory. Unless it is 0 or 3 nothing is written.

example: syncstore flat history < docs/samples/history.rows
";

const DUMP: &str = "\
usage: syncstore dump FOLDER UID

Writes the account UID that is kept in FOLDER as a text, batches that wait for their commit included: a line for the times, each
collection, row, batch and part, a line with the SHA-256 of all lines before it, and an end. Equal accounts have equal dumps.
docs/SERVING.md tells how an account is moved, and how the digest is checked by sha256sum; docs/WIRE.md tells the lines.

  FOLDER    holds UID.db; where the folder isn't there it isn't made. A file that isn't there is made: its dump is that of a
            fresh account, and standard error tells that the file was new
  UID       a number from 1 to 4294967295, without a leading zero

No server may have the file open. Standard error names what failed.

exit status: 0 written; 1 faulty words; 2 the folder or the file failed, or a server has the file open; 3 the output failed; 4 the
file holds no account, or a row out of form; 8 no memory. Unless it is 0 or 3 nothing is written.

example: syncstore dump data 7 > seven
";

const RESTORE: &str = "\
usage: syncstore restore FOLDER UID

Reads a dump on standard input, and fills the account UID in FOLDER with it, all at once. The account answers from then on as the one
that was dumped would have answered. Nothing is written to standard output.

  FOLDER    is to hold UID.db; the folder and the file are made where they aren't there
  UID       a number from 1 to 4294967295, without a leading zero; it may be another than the one that was dumped

No server may have the file open. An account that has anything is left as it is. Standard error names what failed, and of a text that
is no dump the first bad line, or its digest, or the first collection, row or batch for which there is no account.

exit status: 0 restored; 1 faulty words; 2 the folder or the file failed, or a server has the file open; 4 the account has something,
or its file a row out of form; 5 the input is no dump; 6 more than 1073741824 bytes; 7 the input failed; 8 no memory. Unless it is
0 nothing is restored.

example: syncstore restore elsewhere 7 < seven
";

const AUDIT: &str = "\
usage: syncstore audit

Reads the logs of one account, one behind the other, and computes each request anew by the rules of the API. It tells in one line
whether they are a history that the rules allow, in which nothing was lost between two logs: [\"yes\",LOGS,ENTRIES,TIME], or
[\"no\",LOG,ENTRY,WHY] with the first place where they aren't, and opening, follows, ticket or limits. docs/WIRE.md tells the lines.

exit status: 0 yes was written; 1 faulty words; 2 the input failed; 3 the output failed; 5 a line is not the next one of a log; 6 more
than 268435456 bytes; 7 no was written; 8 no memory. Unless it is 0, 3 or 7 nothing is written.

example: syncstore audit < docs/samples/put.log
";

const REHEARSE: &str = "\
usage: syncstore rehearse N S

Plays a whole exchange of two devices with one new account, in memory, and tells how it went. The first device gets N bookmarks, and
both sync; the second renames each third one, and the first moves each second one to the end of menu; and the first, the second and
again the first sync. The same words give the same lines.

  N    how many bookmarks: 1 to 15000
  S    the seed that titles and folders are drawn from: 0 to 999999999999

It prints five lines: items and their number; posts and how many uploads each of the five syncs sent; menu and how many children it
has; renamed and how many titles begin with R; equal yes where both devices have the same tree, else equal no. docs/REHEARSAL.md
tells how they are drawn.

exit status: 0 written; 1 faulty words; 3 the output failed; 8 no memory. Unless it is 0 or 3 nothing is written.

example: syncstore rehearse 6000 1
";

const SYNC: &str = "\
usage: syncstore sync URL FILE [--newer]

Syncs the device in FILE with an account of a server: fetches, merges, uploads what changed all at once, and saves the device. It
prints one line.

  URL        http://HOST[:PORT]/1.5/UID, without a query; the port is 80 where none is given
  FILE       the device's file; where there is none, a new device
  --newer    fetches only what is newer than the device's last sync

exit status: 0 synced and saved; 1 faulty words; 2 a dial or a link failed; 3 the server refused a request or a record; 4 the
collection changed four times; 5 too much for the server's limits; 6 FILE is no device's file; 7 FILE could not be read or written;
8 no memory; 9 a reply that can't be read; 10 the line could not be printed. Unless it is 0 or 10 FILE is as before.

example: syncstore sync http://127.0.0.1:8000/1.5/7 device
";

const SERVE: &str = "\
usage: syncstore serve ADDRESS FOLDER UID .. [--workers N] [--connections N] [--terms N] [--firefox]
                       [--journal FOLDER [--from N]]

Serves accounts from SQLite files over HTTP/1.1, without login and without TLS: docs/SERVING.md tells what to put before it. It runs
until it is stopped by a signal, at any moment: what was answered is in the files.

  ADDRESS            where it listens, as 127.0.0.1:8000
  FOLDER             holds UID.db for each account; it is made where it isn't there
  UID ..             1 to 8 accounts, none twice, each from 1 to 4294967295, without a leading zero; others are answered 401
  --workers N        how many connections are served at once: 1 to 16, 4 where nothing is said
  --connections N    of one term: 1 to 1000, 100 where nothing is said. An account takes a limited number of requests in a term; past
                     half of it the term is ended within a second or two, and past all of it the account answers 503 until then
  --terms N          how many terms are served: 0 to 999999999999; 0, which is the default, means without end
  --firefox          reads conditions as Firefox means them: nothing changed since 0 is that the target isn't there, and 11 to 18
                     digits, thousandths of a second taken for seconds, are the last time that there is
  --journal FOLDER   keeps the log of each account and term there, as UID-1, UID-2 and so on, for syncstore audit; the folder is made
                     where it isn't there. A log that is there is not written over; one of more than 268435456 bytes isn't kept, and
                     standard error says so: log too large UID BYTES
  --from N           the number of the first term's logs: 1 to 999999, 1 where nothing is said; only beside --journal

exit status: 0 all terms were served; 1 faulty words; 2 a folder, a file or the address failed; 3 the port failed while it listened;
4 a file holds no account, or a row out of form; 7 a log couldn't be saved; 8 no memory outside a response. Standard error tells when
it listens, a line a term and a log, and why it stops.

example: syncstore serve 127.0.0.1:8000 data 7 8
";

/// What is told of the command of a name.
fn usage_of(name: &str) -> Option<&'static str> {
    if name == FLAT_NAME {
        return Some(FLAT);
    }
    if name == AUDIT_NAME {
        return Some(AUDIT);
    }
    if let Some(verb) = Verb::read(name) {
        return Some(match verb {
            Verb::Dump => DUMP,
            Verb::Restore => RESTORE,
        });
    }
    Some(match Name::read(name)? {
        Name::Answer => ANSWER,
        Name::Edit => EDIT,
        Name::Merge => MERGE,
        Name::Rehearse => REHEARSE,
        Name::Sync => SYNC,
        Name::Serve => SERVE,
    })
}

/// The text that the words ask for, where they ask for one: `--help` or `--version` alone or behind a command's name, or
/// `--help` before one.
pub fn asked_for(words: &[String]) -> Option<&'static str> {
    let (usage, word) = match words {
        [word] => (USAGE, word.as_str()),
        [word, command] if word.as_str() == "--help" => (usage_of(command.as_str())?, "--help"),
        [command, word] => (usage_of(command.as_str())?, word.as_str()),
        _ => return None,
    };
    match word {
        "--help" => Some(usage),
        "--version" => Some(VERSION),
        _ => None,
    }
}

/// Prints a text to standard output, and answers the status; where that fails it is said on standard error.
pub fn print<R: Print + Eprint>(rt: &R, text: &str) -> u8 {
    match print!(rt; "{text}") {
        Ok(()) => 0,
        Err(_) => {
            let _ = eprintln!(rt; "syncstore: writing the output failed");
            3
        }
    }
}
