//! Asks that are joined into words that rise.
ghost use Rattle.std.specs.Prelude.{◌≡◌, IsTrue, ◌<◌, ◌≤◌, ◌+◌, ◌++◌, ◌∷◌, length, map, take, drop};
ghost use Rattle.asl_lock_forest.specs.Holding.{covering_mode};
ghost use Rattle.asl_machine.specs.Asking.{asks_at};
ghost use Rattle.asl_machine.specs.Request.{upper_mode};
ghost use Rattle.asl_lock_queue.specs.Asks.{ask_of, has_kinds};
ghost use Rattle.asl_c_requests.specs.Placed.{named_at, place_of, placed, placed_all};

use asl_code::Effect;
use asl_lock_forest::Node;
use asl_lock_queue::{Ask, ask_for, is_below, mode, node};
use asl_mode_lanes::{Mode, join};

/// Adds what a lock on the node asks to the first words, so many: how many they are then.
pub fn add_all(asks: &mut [Ask], count: usize, at: Node, effect: Effect) -> usize
    requires room { count + 3 ≤ length asks.old }
    requires kinds { IsTrue (has_kinds (take count asks.old)) }
    ensures asks { map ask_of (take result asks.new) ≡ placed_all (map ask_of (take count asks.old)) (asks_at effect at) }
    ensures kinds { IsTrue (has_kinds (take result asks.new)) }
    ensures rest { drop result asks.new ≡ drop result asks.old }
    ensures more { count ≤ result }
    ensures three { result ≤ count + 3 }
    ensures length { length asks.new ≡ length asks.old }
{
    match at {
        Node::Root => add(asks, count, at, own(effect)),
        Node::Class(_) => {
            let above = add(asks, count, Node::Root, upper(effect));
            add(asks, above, at, own(effect))
        }
        Node::Leaf(_, class) => {
            let root = add(asks, count, Node::Root, upper(effect));
            let above = add(asks, root, Node::Class(class), upper(effect));
            add(asks, above, at, own(effect))
        }
    }
}

/// Adds one ask to the first words, so many, in its place: it joins what is asked at its node already. How many they are then.
fn add(asks: &mut [Ask], count: usize, at: Node, asked: Mode) -> usize
    requires room { count < length asks.old }
    requires kinds { IsTrue (has_kinds (take count asks.old)) }
    ensures asks { map ask_of (take result asks.new) ≡ placed (map ask_of (take count asks.old)) at asked }
    ensures kinds { IsTrue (has_kinds (take result asks.new)) }
    ensures rest { drop result asks.new ≡ drop result asks.old }
    ensures more { count ≤ result }
    ensures one { result ≤ count + 1 }
    ensures length { length asks.new ≡ length asks.old }
{
    let place = place_for(&asks[..count], at);
    if is_at(&asks[..count], place, at) {
        let old = asks[place];
        asks[place] = ask_for(at, join(mode(old.mode), asked));
        return count;
    }
    insert(asks, count, place, ask_for(at, asked));
    count + 1
}

/// How many of the words come before the node.
fn place_for(asks: &[Ask], at: Node) -> usize
    ensures value { result ≡ place_of (map ask_of asks.now) at }
    ensures within { result ≤ length asks.now }
{
    for i in 0..asks.len() {
        if !is_below(node(asks[i]), at) {
            return i;
        }
    }
    asks.len()
}

/// Whether the word at the place is of the node.
fn is_at(asks: &[Ask], place: usize, at: Node) -> bool
    ensures { result ≡ named_at asks.now place at }
{
    match asks.get(place) {
        Some(ask) => node(*ask).is_same(at),
        None => false,
    }
}

/// Puts the ask between the first words, so many, and moves those behind it one place on.
fn insert(asks: &mut [Ask], count: usize, place: usize, ask: Ask)
    requires there { place ≤ count }
    requires room { count < length asks.old }
    ensures asks { take (count + 1) asks.new ≡ take place (take count asks.old) ++ ask ∷ drop place (take count asks.old) }
    ensures rest { drop (count + 1) asks.new ≡ drop (count + 1) asks.old }
    ensures length { length asks.new ≡ length asks.old }
{
    asks.copy_within(place..count, place + 1);
    asks[place] = ask;
}

/// The mode that a lock asks at its own node.
fn own(effect: Effect) -> Mode
    ensures { result ≡ covering_mode effect }
{
    match effect {
        Effect::Read => Mode::S,
        Effect::Write => Mode::X,
    }
}

/// The mode that a lock asks above its own node.
fn upper(effect: Effect) -> Mode
    ensures { result ≡ upper_mode effect }
{
    match effect {
        Effect::Read => Mode::IS,
        Effect::Write => Mode::IX,
    }
}
