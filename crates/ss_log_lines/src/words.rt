//! The words for the kinds of things in a request.

ghost use Rattle.std.specs.Prelude.{◌≡◌};
ghost use Rattle.ss_log_lines.specs.LogLines.{mark_word};
ghost use Rattle.ss_log_lines.specs.Requests.{asked_word, sort_word};
ghost use Rattle.ss_log_lines.specs.Values.{asked_of, mark_of, reason_of, sort_of};

use ss_bso::Reason;
use ss_query::{Info, Mark, Sort};

pub(crate) fn asked_word(what: Info) -> &'static str
    ensures { result.now ≡ asked_word what }
{
    match what {
        Info::Collections => "collections",
        Info::Counts => "counts",
        Info::Usage => "usage",
        Info::Quota => "quota",
        Info::Configuration => "configuration",
    }
}

pub(crate) fn asked_of(word: &str) -> Option<Info>
    ensures { result ≡ asked_of word.now }
{
    match word {
        "collections" => Some(Info::Collections),
        "counts" => Some(Info::Counts),
        "usage" => Some(Info::Usage),
        "quota" => Some(Info::Quota),
        "configuration" => Some(Info::Configuration),
        _ => None,
    }
}

pub(crate) fn sort_word(sort: Sort) -> &'static str
    ensures { result.now ≡ sort_word sort }
{
    match sort {
        Sort::Newest => "newest",
        Sort::Oldest => "oldest",
        Sort::Index => "index",
    }
}

pub(crate) fn sort_of(word: &str) -> Option<Sort>
    ensures { result ≡ sort_of word.now }
{
    match word {
        "newest" => Some(Sort::Newest),
        "oldest" => Some(Sort::Oldest),
        "index" => Some(Sort::Index),
        _ => None,
    }
}

/// Why a record failed, as a client is told it.
pub(crate) fn reason_of(word: &str) -> Option<Reason>
    ensures { result ≡ reason_of word.now }
{
    match word {
        "payload" => Some(Reason::Payload),
        "payload size" => Some(Reason::TooLarge),
        "sortindex" => Some(Reason::Sortindex),
        "ttl" => Some(Reason::Ttl),
        _ => None,
    }
}

/// How a request ended.
pub(crate) fn mark_word(mark: Mark) -> &'static str
    ensures { result.now ≡ mark_word mark }
{
    match mark {
        Mark::Done => "done",
        Mark::Keeper => "keeper",
        Mark::Memory => "memory",
    }
}

pub(crate) fn mark_of(word: &str) -> Option<Mark>
    ensures { result ≡ mark_of word.now }
{
    match word {
        "done" => Some(Mark::Done),
        "keeper" => Some(Mark::Keeper),
        "memory" => Some(Mark::Memory),
        _ => None,
    }
}
