//! The lines on standard error.
ghost use Rattle.std.specs.Prelude.{◌≡◌, IfOk, string_bytes};
ghost use Rattle.link_rules.specs.Words.{down_text, end_words, fault_label, fault_words, reason, told_label, told_words, up_text};

use crate::end::LinkEnd;
use link_lines::LinkFault;
use node_links::{ActFault, DialFault};
use orswot_core::ToldFault;
use presence_base::Replica;
use std::alloc::{AllocError, Global};

/// How many links may come in at the same time.
pub const MAX_LINKS: usize = 32;

// The number of a refused told value, as it is told.
fn told_label(fault: ToldFault) -> &'static str
    ensures { result.now ≡ told_label fault }
{
    match fault {
        ToldFault::TwoRanges => "N4 B1",
        ToldFault::BadRange => "N4 B2",
        ToldFault::LiveNotCovered => "N4 B3",
        ToldFault::LiveTwice => "N4 B4",
        ToldFault::TooMany => "N4 B5",
        ToldFault::RowLimits => "N4 B6",
        ToldFault::OutOfMemory => "N8",
    }
}

fn told_words(fault: ToldFault) -> &'static str
    ensures { result.now ≡ told_words fault }
{
    match fault {
        ToldFault::TwoRanges =>
            "a told value has two ranges of one node, or in version 2 one out of order",
        ToldFault::BadRange => "a told value has a range that ends below its start",
        ToldFault::LiveNotCovered =>
            "a told value has a row that none of its ranges and extras covers",
        ToldFault::LiveTwice => "a told value has a row twice",
        ToldFault::TooMany =>
            "a told value has more than 65536 rows and extras, or in version 2 rows and ranges",
        ToldFault::RowLimits =>
            "a told value has a row outside its limits, or of a topic of another shard",
        ToldFault::OutOfMemory => "out of memory",
    }
}

// The number of a refusal, as it is told.
fn fault_label(fault: LinkFault) -> &'static str
    ensures { result.now ≡ fault_label fault }
{
    match fault {
        LinkFault::LineTooLong => "N1",
        LinkFault::NotJson => "N2",
        LinkFault::BadLine => "N3",
        LinkFault::BadTold(fault) => told_label(fault),
        LinkFault::OtherShards => "N5",
        LinkFault::ReadFailed => "N6",
        LinkFault::WriteFailed => "N7",
        LinkFault::OutOfMemory => "N8",
        LinkFault::CutLine => "N9",
    }
}

fn fault_words(fault: LinkFault) -> &'static str
    ensures { result.now ≡ fault_words fault }
{
    match fault {
        LinkFault::LineTooLong => "a line is too long: 4194304 bytes are allowed",
        LinkFault::NotJson => "a line is not JSON",
        LinkFault::BadLine => {
            "a line is none that is allowed here, or a member of it is outside its limits"
        }
        LinkFault::BadTold(fault) => told_words(fault),
        LinkFault::OtherShards => "the other node has another number of shards",
        LinkFault::ReadFailed => "reading failed, or a line was late",
        LinkFault::WriteFailed => "writing failed",
        LinkFault::OutOfMemory => "out of memory",
        LinkFault::CutLine => "the end came within a line",
    }
}

// The reason of a fault of the link, with its number.
fn refusal(alloc: Global, fault: LinkFault) -> Result<String, AllocError>
    ensures { IfOk result (λ s. string_bytes s ≡ reason (LinkEnd.Fault (DialFault.Link fault))) }
{
    let label = fault_label(fault);
    let words = fault_words(fault);
    format!(in alloc; "{label} {words}")
}

fn end_words(end: LinkEnd) -> &'static str
    ensures { result.now ≡ end_words end }
{
    match end {
        LinkEnd::Fault(DialFault::Act(ActFault::ShardFull)) => {
            "a shard takes nothing more in, though a checkpoint was tried"
        }
        LinkEnd::Fault(DialFault::Act(ActFault::OutOfMemory)) => "out of memory",
        LinkEnd::Fault(DialFault::Link(fault)) => fault_words(fault),
        LinkEnd::Closed => "the other node closed it",
        LinkEnd::GivenUp => {
            "this incarnation is gone at the other node, and this node can't go on under the next: start it with a higher --incarnation"
        }
        LinkEnd::GoesOnLater => {
            "this incarnation is gone at the other node, and this node goes on under a higher one a little later"
        }
        LinkEnd::Reborn => "this node goes on under a higher incarnation",
        LinkEnd::OwnReplica => {
            "the other node has this node's own name and incarnation: was it started twice, or does a --peer lead back here?"
        }
        LinkEnd::OwnName => "the other node has this node's own name",
        LinkEnd::OtherName => "the other node has another name than --peer says",
        LinkEnd::NotAPeer => "no --peer of this node has its name",
        LinkEnd::OtherAddress => "no --link-from of this node has its address",
        LinkEnd::NoKey => "the other node shows none of the keys of --link-keys",
        LinkEnd::NoNamedKey => {
            "the other node shows none of the keys of --link-keys under the name that --peer says"
        }
        LinkEnd::Unshown => {
            "the other node closed it and showed no key: has it one of --link-keys?"
        }
        LinkEnd::KeyWanted => "the other node wants a key shown, and this one has no --link-keys",
        LinkEnd::OtherHello => "the other node's hello names another one than showed a key",
        LinkEnd::NoNonce => "the system gives no random bytes to show a key by",
        LinkEnd::Replaced => "a newer link of that node came in",
        LinkEnd::NotReached => "nobody answers there",
        LinkEnd::HostNotFound => {
            "no address is found for its host: the name isn't known, or the resolver doesn't answer"
        }
        LinkEnd::NoFile => "as many files are open as may be: raise with ulimit -n",
        LinkEnd::TooMany => "there are 32 links that came in, and no more are taken",
        LinkEnd::Stopped => "this node stops",
    }
}

// The reason of an end.
fn reason(alloc: Global, end: LinkEnd) -> Result<String, AllocError>
    ensures { IfOk result (λ s. string_bytes s ≡ reason end) }
{
    match end {
        LinkEnd::Fault(DialFault::Link(fault)) => refusal(alloc, fault),
        _ => String::from_str(alloc, end_words(end)),
    }
}

/// The line of a link that has come up, with who is at the other end, and where.
pub fn up_line(alloc: Global, place: &str, other: &Replica) -> Result<String, AllocError>
    ensures { IfOk result (λ s. string_bytes s ≡ up_text place.now other.now) }
{
    let name = other.name.as_str();
    let incarnation = other.incarnation;
    format!(in alloc; "link {place}: up, with {name}.{incarnation}\n")
}

/// The line of a link that went, or that can't be had.
pub fn down_line(alloc: Global, place: &str, end: LinkEnd) -> Result<String, AllocError>
    ensures { IfOk result (λ s. string_bytes s ≡ down_text place.now end) }
{
    let why = reason(alloc, end)?;
    let line = format!(in alloc; "link {place}: down: {why}\n")?;
    Ok(line)
}
