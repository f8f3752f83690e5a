//! Responses that are ready to be written.

ghost use Rattle.std.specs.Prelude.{◌≡◌, OnOk, OnErr, IfOk};
ghost use Rattle.ss_http.specs.Responses.{memory_response};
ghost use Rattle.ss_route.specs.Wire.{wire, local_wire};
ghost use Rattle.ss_route.specs.Ready.{bytes_of, OrMemory, WasSent, WasCut};
ghost use Rattle.ss_text.specs.Time.{clamped_reading};

use crate::responses::{render, render_local};
use crate::routed::Local;
use ss_http::{memory_response, memory_response_len};
use ss_outside::{Sink, WriteFault, write_all};
use ss_query::Reply;
use ss_text::Stamp;
use std::alloc::{AllocError, Global};

/// A response, or what the one needs that stands in its place where no memory was found.
#[derive(Drop)]
pub enum Response {
    /// Its bytes.
    Whole(Vec<u8>),

    /// 507, which tells this time, and closes the connection where it is the last.
    Short { moment: Stamp, last: bool },
}

impl Response {
    /// What was rendered, or 507 in its place.
    fn of(rendered: Result<Vec<u8>, AllocError>, moment: Stamp, last: bool) -> Response
        ensures ok { IfOk rendered (λ text. bytes_of result ≡ text.items) }
        ensures err { OnErr rendered (bytes_of result ≡ memory_response moment last) }
    {
        match rendered {
            Ok(text) => Response::Whole(text),
            Err(_) => Response::Short { moment, last },
        }
    }

    /// The response to an account's reply. `newlines` is the form that a list is asked in; `last` closes the connection.
    pub fn to_reply(alloc: Global, reply: &Reply, newlines: bool, last: bool) -> Response
        ensures { OrMemory (wire reply.now newlines last) reply.now.moment last (bytes_of result) }
    {
        Response::of(render(alloc, reply, newlines, last), reply.moment, last)
    }

    /// The response where no account was asked, at a reading of the clock (hundredths of a second).
    pub fn to_local(alloc: Global, local: &Local, now: u64, last: bool) -> Response
        ensures { OrMemory (local_wire local.now (clamped_reading now) last) (clamped_reading now) last (bytes_of result) }
    {
        let moment = Stamp::clamp(now);
        Response::of(render_local(alloc, local, moment, last), moment, last)
    }

    /// The response where no memory was found to read a message, at a reading of the clock (hundredths of a second).
    pub fn unread(now: u64, last: bool) -> Response
        ensures { bytes_of result ≡ memory_response (clamped_reading now) last }
    {
        Response::Short {
            moment: Stamp::clamp(now),
            last,
        }
    }

    /// Writes the response. It takes no memory.
    pub fn write<T: Sink>(&self, output: &mut T) -> Result<(), WriteFault>
        ensures sent { OnOk result (WasSent (bytes_of self.now) (T.Told.told output.old) (T.Told.told output.new)) }
        ensures cut { OnErr result (WasCut (bytes_of self.now) (T.Told.told output.old) (T.Told.told output.new)) }
    {
        match self {
            Response::Whole(text) => write_all(output, text.as_slice()),
            Response::Short { moment, last } => {
                let text = memory_response(*moment, *last);
                write_all(output, &text[..memory_response_len(*moment, *last)])
            }
        }
    }
}
