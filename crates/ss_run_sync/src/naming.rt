//! The host of a server, as requests name it.

ghost use Rattle.std.specs.Prelude.{◌≡◌, ◌<◌, ◌++◌, IfOk, codes, decimal, string_bytes};
ghost use Rattle.ss_route.specs.Sending.{IsHost};
ghost use Rattle.ss_words.specs.Urls.{HasHost};
ghost use Rattle.ss_run_sync.specs.Naming.{host_named};

use ss_words::Server;
use std::alloc::{AllocError, Global};

/// The port that a URL without one means.
const HTTP: u16 = 80;

/// A host, and behind a colon a port.
fn with_port(alloc: Global, host: &str, port: u16) -> Result<String, AllocError>
    ensures text { IfOk result (λ text. string_bytes text ≡ host.now ++ (codes ":" ++ decimal port)) }
    ensures port { port < 65536 }
{
    format!(in alloc; "{host}:{port}")
}

/// The host, and behind a colon the port where the URL has one.
pub(crate) fn host_named(alloc: Global, server: &Server) -> Result<String, AllocError>
    requires { HasHost server.now }
    ensures name { IfOk result (λ host. string_bytes host ≡ host_named server.now) }
    ensures host { IfOk result (λ host. IsHost (string_bytes host)) }
{
    let host = server.host.as_str();
    if server.port == HTTP {
        String::from_str(alloc, host)
    } else {
        with_port(alloc, host, server.port)
    }
}
