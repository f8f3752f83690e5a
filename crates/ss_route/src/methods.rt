//! Methods.

ghost use Rattle.std.specs.Prelude.{◌≡◌, IfOk, Some};
ghost use Rattle.ss_query.specs.declared.replies.Body.TheVariants.{Empty};
ghost use Rattle.ss_route.specs.Asking.{method_in};
ghost use Rattle.ss_route.specs.Refusals.{Settles};
ghost use Rattle.ss_route.specs.Routing.{is_get};

use crate::cuts::is_same;
use crate::routed::{Local, Stop};
use ss_query::Body;
use ss_text::Bytes;
use std::alloc::{AllocError, Global};

/// The methods of the SyncStorage API 1.5.
#[derive(Clone, Copy, Debug, PartialEq, Eq)]
pub enum Method {
    Get,
    Put,
    Post,
    Delete,
}

impl Method {
    pub fn is_get(self) -> bool
        ensures { result ≡ is_get self }
    {
        match self {
            Method::Get => true,
            Method::Put | Method::Post | Method::Delete => false,
        }
    }
}

/// 405 with the methods that are allowed.
pub fn not_allowed(alloc: Global, methods: &str) -> Result<Local, AllocError>
    ensures { IfOk result (λ local. local ≡ record { status = 405; body = Empty; allow = Some methods.now }) }
{
    Ok(Local {
        status: 405,
        body: Body::Empty,
        allow: Some(Bytes::from_slice(alloc, methods.as_bytes())?),
    })
}

/// The method of a message.
#[tactic(auto, unfolding(crate::specs::Asking::method_in))]
pub fn method_in(alloc: Global, name: &[u8]) -> Result<Method, Stop>
    ensures { Settles result (method_in name.now) }
{
    if is_same(name, b"GET") {
        return Ok(Method::Get);
    }
    if is_same(name, b"PUT") {
        return Ok(Method::Put);
    }
    if is_same(name, b"POST") {
        return Ok(Method::Post);
    }
    if is_same(name, b"DELETE") {
        return Ok(Method::Delete);
    }
    Err(Stop::Refused(not_allowed(alloc, "GET, PUT, POST, DELETE")?))
}
