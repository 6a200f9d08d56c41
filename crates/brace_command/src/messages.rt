ghost use Rattle.std.specs.Prelude.{◌≡◌, ◌++◌, IfOk, OnOk};
ghost use Rattle.brace_desk.specs.Shows.{file_name};
ghost use Rattle.brace_command.specs.Messages.{named_message, placed_message, row_word, row_message, record_message, plan_word, watch_word, line_message, point_word, point_message, save_fault_message, stats_message, phase_word, kind_word, loop_text, agents_text, site_text, fault_message};

use brace_cuts::PlanKind;
use brace_model::{Fault, Phase};
use brace_num::{Kind, NoMemory, print_count};
use brace_pieces::Counts;
use brace_rows::RowKind;
use brace_save::PointFault;
use brace_watch::WatchKind;
use itoa::Buffer;
use std::alloc::Global;

/// The message that begins with a file's name.
pub fn named_message(alloc: Global, name: &str, rest: &[u8]) -> Result<Vec<u8>, NoMemory>
    ensures { IfOk result (λ message. message.items ≡ named_message name.now rest.now) }
{
    let mut message = Vec::new(alloc);
    message.extend_from_slice(b"brace: ")?;
    message.extend_from_slice(name.as_bytes())?;
    message.extend_from_slice(rest)?;
    message.push(b'\n')?;
    Ok(message)
}

/// The message that names a place in a file, by its line and column, and what is found there.
pub fn placed_message(
    alloc: Global,
    name: &str,
    line: u64,
    column: u64,
    kind: &[u8],
) -> Result<Vec<u8>, NoMemory>
    ensures { IfOk result (λ text. text.items ≡ placed_message name.now line column kind.now) }
{
    let mut rest = Vec::new(alloc);
    rest.push(b':')?;
    print_count(&mut rest, line)?;
    rest.push(b':')?;
    print_count(&mut rest, column)?;
    rest.extend_from_slice(b": ")?;
    rest.extend_from_slice(kind)?;
    named_message(alloc, name, rest.as_slice())
}

/// The word of a record's refusal, and the field of a bad value, behind a message.
fn add_row_word(message: &mut Vec<u8>, kind: RowKind) -> Result<(), NoMemory>
    ensures { OnOk result (message.new.items ≡ message.old.items ++ row_word kind) }
{
    match kind {
        RowKind::UnknownClass => message.extend_from_slice(b"UnknownClass")?,
        RowKind::WrongLength => message.extend_from_slice(b"WrongLength")?,
        RowKind::BadValue(field) => {
            message.extend_from_slice(b"BadValue ")?;
            print_count(message, u64::from(field))?;
        }
        RowKind::DuplicateId => message.extend_from_slice(b"DuplicateId")?,
        RowKind::TooMany => message.extend_from_slice(b"TooMany")?,
    }
    Ok(())
}

/// The message that names a record of a file, counted from 1, and what is wrong with it.
pub fn record_message(
    alloc: Global,
    name: &str,
    number: u64,
    kind: RowKind,
) -> Result<Vec<u8>, NoMemory>
    ensures { IfOk result (λ text. text.items ≡ record_message name.now number kind) }
{
    let mut rest = Vec::new(alloc);
    rest.extend_from_slice(b": record ")?;
    print_count(&mut rest, number)?;
    rest.extend_from_slice(b": ")?;
    add_row_word(&mut rest, kind)?;
    named_message(alloc, name, rest.as_slice())
}

/// The word of a plan line's refusal.
pub fn plan_word(kind: PlanKind) -> &'static [u8]
    ensures { result.now ≡ plan_word kind }
{
    match kind {
        PlanKind::BadLine => b"BadLine",
        PlanKind::NotRising => b"NotRising",
        PlanKind::OffEpoch => b"OffEpoch",
        PlanKind::OtherCount => b"OtherCount",
        PlanKind::TooMany => b"TooMany",
    }
}

/// The word of a watch line's refusal.
pub fn watch_word(kind: WatchKind) -> &'static [u8]
    ensures { result.now ≡ watch_word kind }
{
    match kind {
        WatchKind::BadLine => b"BadLine",
        WatchKind::UnknownClass => b"UnknownClass",
        WatchKind::UnknownField => b"UnknownField",
        WatchKind::WrongType => b"WrongType",
        WatchKind::TooMany => b"TooMany",
    }
}

/// The message that names a line of a file, counted from 1, and what is wrong with it.
pub fn line_message(
    alloc: Global,
    name: &str,
    number: u64,
    kind: &[u8],
) -> Result<Vec<u8>, NoMemory>
    ensures { IfOk result (λ text. text.items ≡ line_message name.now number kind.now) }
{
    let mut rest = Vec::new(alloc);
    rest.extend_from_slice(b": line ")?;
    print_count(&mut rest, number)?;
    rest.extend_from_slice(b": ")?;
    rest.extend_from_slice(kind)?;
    named_message(alloc, name, rest.as_slice())
}

/// The word of a checkpoint's refusal, and the number of a bad line, behind a message.
fn add_point_word(message: &mut Vec<u8>, fault: PointFault) -> Result<(), NoMemory>
    ensures { OnOk result (message.new.items ≡ message.old.items ++ point_word fault) }
{
    match fault {
        PointFault::Incomplete => message.extend_from_slice(b"Incomplete")?,
        PointFault::BadLine(number) => {
            message.extend_from_slice(b"BadLine ")?;
            print_count(message, number)?;
        }
        PointFault::OtherClasses => message.extend_from_slice(b"OtherClasses")?,
        PointFault::BadVersion => message.extend_from_slice(b"BadVersion")?,
        PointFault::NoMemory => {}
    }
    Ok(())
}

/// The message that says why a file is no checkpoint.
pub fn point_message(alloc: Global, name: &str, fault: PointFault) -> Result<Vec<u8>, NoMemory>
    ensures { IfOk result (λ text. text.items ≡ point_message name.now fault) }
{
    let mut rest = Vec::new(alloc);
    rest.extend_from_slice(b": ")?;
    add_point_word(&mut rest, fault)?;
    named_message(alloc, name, rest.as_slice())
}

/// The message that names the first row of a published file that differs, counted from 1.
pub fn row_message(alloc: Global, name: &str, number: u64) -> Result<Vec<u8>, NoMemory>
    ensures { IfOk result (λ text. text.items ≡ row_message name.now number) }
{
    let mut rest = Vec::new(alloc);
    rest.extend_from_slice(b": row ")?;
    print_count(&mut rest, number)?;
    rest.extend_from_slice(b": Differs")?;
    named_message(alloc, name, rest.as_slice())
}

/// The message where `NAME.k` was not saved, for the tick k.
pub fn save_fault_message(alloc: Global, name: &str, tick: u64) -> Result<Vec<u8>, NoMemory>
    ensures { IfOk result
        (λ text. text.items ≡ save_fault_message (file_name name.now tick)) }
{
    let mut file = String::new(alloc);
    file.push_str(name)?;
    file.push_str(".")?;
    file.push_str(Buffer::new().format(tick))?;
    named_message(alloc, file.as_str(), b": save fault")
}

/// What parts gave in a run.
pub fn stats_message(alloc: Global, counts: &Counts) -> Result<Vec<u8>, NoMemory>
    ensures { IfOk result (λ text. text.items ≡ stats_message
        counts.now.border counts.now.effects counts.now.moved counts.now.handed) }
{
    let mut message = Vec::new(alloc);
    message.extend_from_slice(b"stats border ")?;
    message.extend_from_slice(Buffer::new().format(counts.border).as_bytes())?;
    message.extend_from_slice(b" effects ")?;
    message.extend_from_slice(Buffer::new().format(counts.effects).as_bytes())?;
    message.extend_from_slice(b" moved ")?;
    message.extend_from_slice(Buffer::new().format(counts.moved).as_bytes())?;
    message.extend_from_slice(b" handed ")?;
    message.extend_from_slice(Buffer::new().format(counts.handed).as_bytes())?;
    message.push(b'\n')?;
    Ok(message)
}

fn phase_word(phase: Phase) -> &'static [u8]
    ensures { result.now ≡ phase_word phase }
{
    match phase {
        Phase::Query => b" query agent ",
        Phase::Update => b" update agent ",
        Phase::Birth => b" birth agent ",
    }
}

fn kind_word(kind: Kind) -> &'static [u8]
    ensures { result.now ≡ kind_word kind }
{
    match kind {
        Kind::Overflow => b"Overflow\n",
        Kind::DivZero => b"DivZero\n",
        Kind::NegRoot => b"NegRoot\n",
        Kind::TooMany => b"TooMany\n",
    }
}

/// A loop's agent behind a word, where there is one.
fn add_loop(message: &mut Vec<u8>, word: &[u8], id: Option<u64>) -> Result<(), NoMemory>
    ensures { OnOk result (message.new.items ≡ message.old.items ++ loop_text word.now id) }
{
    if let Some(id) = id {
        message.extend_from_slice(word)?;
        print_count(message, id)?;
    }
    Ok(())
}

/// The phase, the agent and the loops' agents of a fault.
fn add_agents(message: &mut Vec<u8>, fault: &Fault) -> Result<(), NoMemory>
    ensures { OnOk result (message.new.items ≡ message.old.items ++ agents_text fault.now) }
{
    message.extend_from_slice(phase_word(fault.phase))?;
    print_count(message, fault.agent)?;
    add_loop(message, b" with ", fault.outer)?;
    add_loop(message, b" and ", fault.inner)
}

/// The site and the kind of a fault.
fn add_site(message: &mut Vec<u8>, fault: &Fault) -> Result<(), NoMemory>
    ensures { OnOk result (message.new.items ≡ message.old.items ++ site_text fault.now) }
{
    message.extend_from_slice(b" site ")?;
    print_count(message, u64::from(fault.site))?;
    message.extend_from_slice(b": ")?;
    message.extend_from_slice(kind_word(fault.kind))?;
    Ok(())
}

/// The message of a fault of the run.
pub fn fault_message(alloc: Global, fault: &Fault) -> Result<Vec<u8>, NoMemory>
    ensures { IfOk result (λ message. message.items ≡ fault_message fault.now) }
{
    let mut message = Vec::new(alloc);
    message.extend_from_slice(b"brace: tick ")?;
    print_count(&mut message, fault.tick)?;
    add_agents(&mut message, fault)?;
    add_site(&mut message, fault)?;
    Ok(message)
}
