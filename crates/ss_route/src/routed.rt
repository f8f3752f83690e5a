//! What a message is routed to, and what it is told where a rule refuses it.

ghost use Rattle.std.specs.Prelude.{◌≡◌};
ghost use Rattle.ss_route.specs.Refusals.{local_with_word, code};
ghost use Rattle.ss_route.specs.declared.routed.Stop.TheVariants.{Memory};

use ss_bso::{BodyFault, FieldsFault, Reason};
use ss_query::{Body, QueryFault, Request, Said};
use ss_text::Bytes;
use std::alloc::AllocError;

/// What a message is told that no account is asked for: a status with its error body and, with 405, the allowed
/// methods.
#[derive(Drop, Debug)]
pub struct Local {
    pub status: u16,
    pub body: Body,
    pub allow: Option<Bytes>,
}

/// What a message is routed to.
#[derive(Drop, Debug)]
pub enum Routed {
    /// A request to an account, and whether a list is wanted an element a line.
    Ask {
        uid: u32,
        request: Request,
        newlines: bool,
    },

    /// The reply of the first rule that refuses it.
    Local(Local),
    Memory,
}

/// Why routing stops.
#[derive(Drop, Debug)]
pub enum Stop {
    /// A rule refuses the message.
    Refused(Local),
    Memory,
}

impl From<AllocError> for Stop {
    ghost from_gives = { λ _ stop. stop ≡ Memory };

    fn from(_error: AllocError) -> Stop {
        Stop::Memory
    }
}

/// A status with a word.
pub fn said(status: u16, word: Said) -> Local
    ensures { result ≡ local_with_word status word }
{
    Local {
        status,
        body: Body::Said(word),
        allow: None,
    }
}

/// 400 with a code.
pub fn code(number: u16) -> Local
    ensures { result ≡ code number }
{
    Local {
        status: 400,
        body: Body::Code(number),
        allow: None,
    }
}
