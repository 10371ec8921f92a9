// For tests only: a system of two actors, most of it zero, in which some numbers are changed. A way names them: each has a
// letter, and its value stands behind that, as in "a9 i129". Those that are not named are 0, but for a 2, F 1 and I 1.
//
// a       how many actors                         A       the place of the changed actor
// b       the network's kind                      B C D   crashed, its timers, its inner state
// c d e   first entry: source, number, count      E       whether something is stored
// f g h   second entry, alike                     F       the next number of the actors 0 and 1
// i       how many entries                        G H     1 above the inner value, live and stored
// j       last message: 1 above its source        I       the link's next number
// k l     the table's place, how many rules       J K L   pending: two numbers, how many
// m .. s  event, state, low, high, touched,       M N O P taken: three numbers, how many
//         next state, how many commands           Q .. X  what is stored, as I .. P
// t       the command: 0 set, 1 cancel, 2 send, 3 save
// u v w x to the source, destination or timer, echo, payload or value
//
// Eight numbers stand in a word.
#![tactic(auto)]

ghost use Rattle.std.specs.Prelude.{◌<◌};

use link_durable::{Durable, Link, Stored, Taken};
use link_inner::{Table, zero_table};
use link_timers::Timers;
use net_network::Network;
use sys_actor::{Actor, zero_actor};
use sys_system::System;
use types::{
    Entry, Envelope, Id, Kind, MOST_ACTORS, MOST_COMMANDS, Message, Number, Payload, Pending, Rule,
    RuleCommand, Slot,
};

type Word = [u8; 8];

// ---- the numbers of a way
// From 201 on it counts down from 2^64: 202 stands for 2^64 - 2.
fn number(b: u8) -> Number {
    if b <= 200 {
        return Number(u64::from(b));
    }
    Number(u64::MAX - u64::from(b - 201))
}

// A digit goes behind the value, and a letter begins a new one.
fn next_value(value: u8, b: u8) -> u8 {
    match b {
        b'A'..=255 => 0,
        b'0'..=b'9' if value <= 24 => value * 10 + (b - b'0'),
        _ => value,
    }
}

// A letter names another number.
fn next_place(place: usize, b: u8) -> usize
    requires { place < 48 }
    ensures { result < 48 }
{
    match b {
        b'a'..=255 => usize::from((b - b'a') % 24),
        b'A'..=255 => 24 + usize::from((b - b'A') % 24),
        _ => place,
    }
}

// Each byte writes the value at its place. The first place, a, has 2 until a letter comes.
fn words(way: &[u8]) -> [Word; 6] {
    let mut words = [[0; 8]; 6];
    words[0][0] = 2;
    words[3][5] = 1;
    words[4][0] = 1;
    let mut value = 2;
    let mut place = 0;
    for &b in way {
        value = next_value(value, b);
        place = next_place(place, b);
        words[place / 8][place % 8] = value;
    }
    words
}

// ---- the network
fn entry(src: u8, number: Number, count: u8) -> Entry {
    Entry {
        envelope: Envelope {
            src: Id(src),
            dst: Id(0),
            msg: Message::Deliver(number, Payload(0)),
        },
        count: u16::from(count),
    }
}

fn kind_of(kind: u8) -> Kind {
    match kind {
        0 => Kind::Ordered,
        1 => Kind::UnorderedDuplicating,
        _ => Kind::UnorderedNonDuplicating,
    }
}

fn last_of(above: u8) -> Option<Envelope> {
    if above == 0 {
        return None;
    }
    let x = entry(above - 1, Number(1), 0);
    let e = x.envelope;
    Some(e)
}

fn network(first: &Word, second: &Word) -> Network {
    let x = entry(first[2], number(first[3]), first[4]);
    let y = entry(first[5], number(first[6]), first[7]);
    let last = last_of(second[1]);
    let kind = kind_of(first[1]);
    let blank = net_network::blank(kind);
    let mut entries = blank.entries;
    entries[0] = x;
    entries[1] = y;
    Network {
        kind,
        entries,
        used: usize::from(second[0]),
        last,
    }
}

// ---- the table
fn command(kind: u8, source: bool, v: u8, echo: bool, x: u32) -> RuleCommand {
    match kind {
        0 => RuleCommand::SetTimer(v),
        1 => RuleCommand::CancelTimer(v),
        2 => RuleCommand::Send(source, Id(v), echo, Payload(x)),
        _ => RuleCommand::Save(echo, x),
    }
}

fn rule(first: &Word, second: &Word) -> Rule {
    let c = command(
        second[3],
        second[4] != 0,
        second[5],
        second[6] != 0,
        u32::from(second[7]),
    );
    let zero = Slot {
        command: RuleCommand::SetTimer(0),
    };
    let mut commands = [zero; MOST_COMMANDS];
    commands[0] = Slot { command: c };
    Rule {
        event: first[4],
        state: first[5],
        low: u32::from(first[6]),
        high: u32::from(first[7]),
        touched: second[0] != 0,
        next: second[1],
        commands,
        used: usize::from(second[2]),
    }
}

fn table(first: &Word, second: &Word) -> Table {
    let r = rule(first, second);
    let mut t = zero_table();
    t.rules[0] = r;
    t.used = usize::from(first[3]);
    t
}

// ---- the actor
fn pending(number: Number) -> Pending {
    Pending {
        number,
        dst: Id(0),
        payload: Payload(0),
    }
}

fn storage(above: u8) -> Option<u32> {
    if above == 0 {
        return None;
    }
    Some(u32::from(above - 1))
}

fn durable(word: &Word, above: u8) -> Durable {
    let next = number(word[0]);
    let inner = storage(above);
    let blank = zero_actor();
    let l = blank.link;
    let d = l.durable;
    let mut p = d.pending;
    p.places[0] = pending(number(word[1]));
    p.places[1] = pending(number(word[2]));
    p.used = usize::from(word[3]);
    let a = number(word[4]);
    let b = number(word[5]);
    let c = number(word[6]);
    let z = Number(0);
    Durable {
        next,
        pending: p,
        taken: Taken {
            places: [a, b, c, z, z, z, z, z],
            used: usize::from(word[7]),
        },
        inner,
    }
}

fn actor(word: &Word, live: &Word, stored: &Word) -> Actor {
    let d = durable(live, word[6]);
    let e = durable(stored, word[7]);
    Actor {
        crashed: word[1] != 0,
        timers: Timers(u32::from(word[2])),
        link: Link {
            durable: d,
            state: word[3],
        },
        stored: Stored {
            some: word[4] != 0,
            durable: e,
        },
    }
}

// ---- the system
fn actors(word: &Word, live: &Word, stored: &Word) -> [Actor; MOST_ACTORS] {
    let plain = actor(&[0; 8], &[word[5], 0, 0, 0, 0, 0, 0, 0], &[0; 8]);
    let changed = actor(word, live, stored);
    let zero = zero_actor();
    let mut all = [zero; MOST_ACTORS];
    all[0] = plain;
    all[1] = plain;
    all[usize::from(word[0]) % MOST_ACTORS] = changed;
    all
}

fn tables(first: &Word, second: &Word) -> [Table; MOST_ACTORS] {
    let t = table(first, second);
    let zero = zero_table();
    let mut all = [zero; MOST_ACTORS];
    all[usize::from(first[2]) % MOST_ACTORS] = t;
    all
}

pub fn made(way: &[u8]) -> System {
    let [first, second, third, word, live, stored] = words(way);
    System {
        count: usize::from(first[0]),
        network: network(&first, &second),
        actors: actors(&word, &live, &stored),
        tables: tables(&second, &third),
    }
}
