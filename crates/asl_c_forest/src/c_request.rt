//! Requests, from the words of C.
ghost use Rattle.std.specs.Prelude.{◌≡◌, ◌<◌, ◌≤◌, [], IsTrue, map, length, vec_capacity, IfOk, OnOk, OnErr};
ghost use Rattle.asl_lock_forest.specs.Request.{asks_modes};
ghost use Rattle.asl_lock_queue.specs.Asks.{has_kinds, ask_of};
ghost use Rattle.asl_c_forest.specs.Status.{has_classes};
ghost use Rattle.asl_c_forest.specs.Plain.{is_plain};

use crate::request_fits::{is_kind, is_there};
use asl_lock_forest::Node;
use asl_lock_queue::{Ask, mode, node};
use asl_mode_lanes::Mode;
use std::alloc::{AllocError, Global};

/// The node and the mode.
fn pair(ask: Ask) -> (Node, Mode)
    ensures { result ≡ ask_of ask }
{
    (node(ask), mode(ask.mode))
}

/// The request.
///
/// # Errors
///
/// An allocation failed, and something is asked.
pub fn read(alloc: Global, asks: &[Ask]) -> Result<Vec<(Node, Mode)>, AllocError>
    ensures ok { IfOk result (λ request. request.items ≡ map ask_of asks.now) }
    ensures asks { OnErr result (0 < length asks.now) }
{
    let mut request = Vec::with_capacity(alloc, asks.len())?;
    for ask in asks {
        request.push(pair(*ask))?;
    }
    Ok(request)
}

/// Makes the request in a vector in which nothing stands.
///
/// # Errors
///
/// An allocation failed, and there was less room than is asked.
pub fn read_into(request: &mut Vec<(Node, Mode)>, asks: &[Ask]) -> Result<(), AllocError>
    requires { request.old.items ≡ [] }
    ensures ok { OnOk result (request.new.items ≡ map ask_of asks.now) }
    ensures full { OnErr result (vec_capacity request.old < length asks.now) }
    ensures room { vec_capacity request.old ≤ vec_capacity request.new }
{
    for ask in asks {
        request.push(pair(*ask))?;
    }
    Ok(())
}

/// Whether the kind, the class and the mode of an ask are there.
fn is_plain(classes: u32, ask: Ask) -> bool
    ensures { result ≡ is_plain classes ask }
{
    is_kind(ask.kind) && is_there(classes, node(ask)) && !matches!(mode(ask.mode), Mode::NL)
}

/// Makes the request in a vector with room for it, in which nothing stands, where each kind, class and mode is there; else part of it.
pub fn read_plain(request: &mut Vec<(Node, Mode)>, classes: u32, asks: &[Ask]) -> bool
    requires empty { request.old.items ≡ [] }
    requires fits { length asks.now ≤ vec_capacity request.old }
    ensures kinds { IsTrue result → IsTrue (has_kinds asks.now) }
    ensures classes { IsTrue result → IsTrue (has_classes classes asks.now) }
    ensures modes { IsTrue result → IsTrue (asks_modes (map ask_of asks.now)) }
    ensures read { IsTrue result → request.new.items ≡ map ask_of asks.now }
    ensures room { vec_capacity request.old ≤ vec_capacity request.new }
{
    for ask in asks {
        if !is_plain(classes, *ask) {
            return false;
        }
        request.push_reserved(pair(*ask));
    }
    true
}
