ghost use Rattle.std.specs.Prelude.{◌≡◌, IfOk};
ghost use Rattle.apex_model.specs.Accepted.{IsAccepted};
ghost use Rattle.apex_model.specs.Lines.{SamplingCallHasBytes};

use apex_types::{
    ChannelRow, Destinations, Mode, Name, OutOfMemory, PartitionId, PartitionRow, PortRow, Reply,
    ReturnCode, SamplingCall, Table, Token, Updated, Validity, Values,
};
use sampling_ext::{Ports, sampling_call};
use std::alloc::Global;
use std::marker::Model;
use std::test::Fail;

const FMS: PartitionId = PartitionId(0);

const DISP: PartitionId = PartitionId(1);

const MNT: PartitionId = PartitionId(2);

/// Three partitions with the altitude for one display, and the speed for a display and maintenance.
#[derive(Drop)]
struct Module {
    table: Table,
    ports: Ports,
    now: u32,
}

impl Model for Module {
    ghost use Rattle.std.specs.Prelude.{ℕ};
    ghost use Rattle.apex_model.specs.Accepted.{IsAccepted};
    ghost use Rattle.sampling_ext.specs.Standing.{IsServing};

    ghost Value = { ℕ };

    ghost view = { λ m. m.now };

    ghost invariant = { λ m. IsAccepted m.table × IsServing m.table m.now m.ports };
}

/// A call, before its memory is taken.
#[derive(Clone, Copy)]
enum Act<'a> {
    Create(&'a [u8]),
    Write(u32, &'a [u8]),
    Read(u32),
    Status(u32),
    ReadLater(u32, u32),
}

/// A name of the table. One that isn't spelled so is taken for want of memory.
fn name(bytes: &[u8]) -> Result<Name, OutOfMemory>
    ensures { IfOk result (λ name. name ≡ bytes.now) }
{
    match Name::read_in_table(bytes) {
        Some(name) => Ok(name),
        None => Err(OutOfMemory),
    }
}

fn port(partition: PartitionId, bytes: &[u8]) -> Result<PortRow, OutOfMemory>
    ensures { IfOk result (λ row. row ≡ record { partition = partition; name = bytes.now }) }
{
    let name = name(bytes)?;
    Ok(PortRow { partition, name })
}

fn three_partitions(alloc: Global) -> Result<Table, OutOfMemory>
    ensures { IfOk result IsAccepted }
{
    let mut table = Table::new(alloc);
    table.push_partition(PartitionRow {
        name: name(b"FMS")?,
    })?;
    table.push_partition(PartitionRow {
        name: name(b"DISP")?,
    })?;
    table.push_partition(PartitionRow {
        name: name(b"MNT")?,
    })?;
    let mut destinations = Destinations::new();
    destinations.push(port(DISP, b"ALT")?);
    table.push_channel(ChannelRow {
        source: port(FMS, b"ALT")?,
        destinations,
        size: 4,
        refresh: 10,
    })?;
    let mut destinations = Destinations::new();
    destinations.push(port(DISP, b"SPD")?);
    destinations.push(port(MNT, b"SPD")?);
    table.push_channel(ChannelRow {
        source: port(FMS, b"SPD")?,
        destinations,
        size: 2,
        refresh: 5,
    })?;
    Ok(table)
}

fn write_call(alloc: Global, id: u32, bytes: &[u8]) -> Result<SamplingCall, OutOfMemory>
    ensures { IfOk result SamplingCallHasBytes }
{
    let bytes = Token::read(alloc, bytes)?;
    Ok(SamplingCall::Write { id, bytes })
}

fn call_of(alloc: Global, act: Act<'_>) -> Result<SamplingCall, OutOfMemory>
    ensures { IfOk result SamplingCallHasBytes }
{
    match act {
        Act::Create(name) => {
            let name = Token::read(alloc, name)?;
            Ok(SamplingCall::Create { name })
        }
        Act::Write(id, bytes) => write_call(alloc, id, bytes),
        Act::Read(id) => Ok(SamplingCall::ReadUpdated { id }),
        Act::Status(id) => Ok(SamplingCall::CurrentStatus { id }),
        Act::ReadLater(id, time) => Ok(SamplingCall::ReadConditional { id, time }),
    }
}

impl Module {
    fn start(alloc: Global) -> Result<Module, OutOfMemory> {
        let table = three_partitions(alloc)?;
        let ports = Ports::new(alloc, &table)?;
        Ok(Module {
            table,
            ports,
            now: 0,
        })
    }

    fn tick(&mut self, ticks: u32) {
        self.now = self.now.saturating_add(ticks);
    }

    fn call(
        &mut self,
        alloc: Global,
        p: PartitionId,
        mode: Mode,
        act: Act<'_>,
    ) -> Result<Reply, OutOfMemory> {
        let call = call_of(alloc, act)?;
        Ok(sampling_call(&self.table, &mut self.ports, self.now, p, mode, &call))
    }

    fn restart(&mut self, p: PartitionId) {
        self.ports.restart(p);
    }
}

fn code_word(code: ReturnCode) -> &'static str {
    match code {
        ReturnCode::NoError => "NoError",
        ReturnCode::NoAction => "NoAction",
        ReturnCode::InvalidParam => "InvalidParam",
        ReturnCode::InvalidConfig => "InvalidConfig",
        ReturnCode::InvalidMode => "InvalidMode",
        _ => "other",
    }
}

fn updated_word(updated: Updated) -> &'static str {
    match updated {
        Updated::EmptyPort => "EmptyPort",
        Updated::NewMessage => "NewMessage",
        Updated::ConsumedMessage => "ConsumedMessage",
    }
}

fn validity_word(validity: Validity) -> &'static str {
    match validity {
        Validity::Valid => "Valid",
        Validity::Invalid => "Invalid",
    }
}

/// The values of a reply in words.
fn values_text(alloc: Global, values: &Values) -> Result<String, Fail> {
    let text = match values {
        Values::Empty => format!(in alloc; "Empty")?,
        Values::Number(number) => format!(in alloc; "Number({number})")?,
        Values::State(updated) => format!(in alloc; "State({})", updated_word(*updated))?,
        Values::SourceStatus { size, refresh } => {
            format!(in alloc; "SourceStatus {{ size: {size}, refresh: {refresh} }}")?
        }
        Values::EmptyStatus { size, refresh } => {
            format!(in alloc; "EmptyStatus {{ size: {size}, refresh: {refresh} }}")?
        }
        _ => filled_text(alloc, values)?,
    };
    Ok(text)
}

/// Those of a port that has a message.
fn filled_text(alloc: Global, values: &Values) -> Result<String, Fail> {
    let text = match values {
        Values::Message {
            updated,
            validity,
            bytes,
        } => {
            let updated = updated_word(*updated);
            let validity = validity_word(*validity);
            let bytes = bytes.bytes();
            format!(in alloc;
                "Message {{ updated: {updated}, validity: {validity}, bytes: Bytes {{ content: {bytes:?} }} }}"
            )?
        }
        Values::PortStatus {
            size,
            refresh,
            updated,
            validity,
            age,
        } => {
            let updated = updated_word(*updated);
            let validity = validity_word(*validity);
            format!(in alloc;
                "PortStatus {{ size: {size}, refresh: {refresh}, updated: {updated}, validity: {validity}, age: {age} }}"
            )?
        }
        _ => format!(in alloc; "other")?,
    };
    Ok(text)
}

/// Whether a reply is told by these words: its code and its values.
fn is_told(alloc: Global, reply: &Reply, wanted: &str) -> Result<bool, Fail> {
    let values = values_text(alloc, &reply.values)?;
    let told = format!(in alloc; "{} {}", code_word(reply.code), values.as_str())?;
    Ok(told.as_str() == wanted)
}

/// Makes calls, each after so many ticks, and answers the first step that is answered otherwise.
fn first_other(
    alloc: Global,
    module: &mut Module,
    mode: Mode,
    steps: &[(u32, PartitionId, Act<'_>, &str)],
) -> Result<Option<usize>, Fail> {
    for (k, (ticks, p, act, wanted)) in steps.iter().enumerate() {
        module.tick(*ticks);
        let reply = module.call(alloc, *p, mode, *act)?;
        if reply.errno.is_some() || !is_told(alloc, &reply, wanted)? {
            return Ok(Some(k));
        }
    }
    Ok(None)
}

#[test]
fn a_message_is_new_once_and_grows_old(rt: HostRuntime) -> Result<(), Fail> {
    let alloc = rt.alloc();
    let mut module = Module::start(alloc)?;
    let steps: [(u32, PartitionId, Act<'_>, &str); 10] = [
        (0, FMS, Act::Create(b"ALT"), "NoError Number(1)"),
        (0, DISP, Act::Create(b"ALT"), "NoError Number(1)"),
        (0, DISP, Act::Read(1), "NoAction State(EmptyPort)"),
        (0, FMS, Act::Write(1, &[10, 11]), "NoError Empty"),
        (
            10,
            DISP,
            Act::Read(1),
            "NoError Message { updated: NewMessage, validity: Valid, bytes: Bytes { content: [10, 11] } }",
        ),
        (
            1,
            DISP,
            Act::Status(1),
            "NoError PortStatus { size: 4, refresh: 10, updated: ConsumedMessage, validity: Invalid, age: 11 }",
        ),
        (
            0,
            DISP,
            Act::ReadLater(1, 0),
            "NoAction State(ConsumedMessage)",
        ),
        (
            0,
            FMS,
            Act::Write(1, &[1, 2, 3, 4, 5]),
            "InvalidConfig Empty",
        ),
        (0, FMS, Act::Write(1, &[12]), "NoError Empty"),
        (
            0,
            DISP,
            Act::ReadLater(1, 10),
            "NoError Message { updated: NewMessage, validity: Valid, bytes: Bytes { content: [12] } }",
        ),
    ];
    assert_eq!(rt;
        first_other(alloc, &mut module, Mode::ColdStart, &steps)?,
        None
    );
    Ok(())
}

#[test]
fn each_destination_reads_by_itself(rt: HostRuntime) -> Result<(), Fail> {
    let alloc = rt.alloc();
    let mut module = Module::start(alloc)?;
    let steps: [(u32, PartitionId, Act<'_>, &str); 13] = [
        (0, FMS, Act::Create(b"SPD"), "NoError Number(2)"),
        (0, DISP, Act::Create(b"SPD"), "NoError Number(2)"),
        (0, MNT, Act::Create(b"SPD"), "NoError Number(1)"),
        (
            0,
            FMS,
            Act::Status(2),
            "NoError SourceStatus { size: 2, refresh: 5 }",
        ),
        (
            0,
            MNT,
            Act::Status(1),
            "NoError EmptyStatus { size: 2, refresh: 5 }",
        ),
        (7, FMS, Act::Write(2, &[1, 2]), "NoError Empty"),
        (
            0,
            DISP,
            Act::Read(2),
            "NoError Message { updated: NewMessage, validity: Valid, bytes: Bytes { content: [1, 2] } }",
        ),
        (
            5,
            DISP,
            Act::Status(2),
            "NoError PortStatus { size: 2, refresh: 5, updated: ConsumedMessage, validity: Valid, age: 5 }",
        ),
        (
            1,
            MNT,
            Act::Status(1),
            "NoError PortStatus { size: 2, refresh: 5, updated: NewMessage, validity: Invalid, age: 6 }",
        ),
        (0, MNT, Act::ReadLater(1, 7), "NoAction State(NewMessage)"),
        (
            0,
            MNT,
            Act::ReadLater(1, 6),
            "NoError Message { updated: NewMessage, validity: Invalid, bytes: Bytes { content: [1, 2] } }",
        ),
        (0, FMS, Act::Write(2, &[3]), "NoError Empty"),
        (
            0,
            DISP,
            Act::Read(2),
            "NoError Message { updated: NewMessage, validity: Valid, bytes: Bytes { content: [3] } }",
        ),
    ];
    assert_eq!(rt;
        first_other(alloc, &mut module, Mode::WarmStart, &steps)?,
        None
    );
    Ok(())
}

fn other_of_idle(alloc: Global) -> Result<Option<usize>, Fail> {
    let steps: [(u32, PartitionId, Act<'_>, &str); 5] = [
        (0, FMS, Act::Create(b"NONE"), "InvalidMode Empty"),
        (0, FMS, Act::Write(9, &[]), "InvalidMode Empty"),
        (0, FMS, Act::Read(9), "InvalidMode Empty"),
        (0, FMS, Act::Status(9), "InvalidMode Empty"),
        (0, FMS, Act::ReadLater(9, 9), "InvalidMode Empty"),
    ];
    let mut module = Module::start(alloc)?;
    first_other(alloc, &mut module, Mode::Idle, &steps)
}

// The altitude's source and display have created their ports, after refusals.
fn created(alloc: Global) -> Result<Module, Fail> {
    let steps: [(u32, PartitionId, Act<'_>, &str); 7] = [
        (0, FMS, Act::Create(b"NONE"), "InvalidConfig Empty"),
        (0, MNT, Act::Create(b"ALT"), "InvalidConfig Empty"),
        (0, FMS, Act::Create(b"ALT"), "NoError Number(1)"),
        (0, FMS, Act::Create(b"ALT"), "NoAction Empty"),
        (0, DISP, Act::Create(b"ALT"), "NoError Number(1)"),
        (0, FMS, Act::Write(2, &[1]), "InvalidParam Empty"),
        (0, DISP, Act::Read(2), "InvalidParam Empty"),
    ];
    let mut module = Module::start(alloc)?;
    if first_other(alloc, &mut module, Mode::ColdStart, &steps)?.is_some() {
        return Err(Fail::from("created"));
    }
    Ok(module)
}

fn other_of_writes(alloc: Global) -> Result<Option<usize>, Fail> {
    let steps: [(u32, PartitionId, Act<'_>, &str); 9] = [
        (0, FMS, Act::Create(b"SPD"), "InvalidMode Empty"),
        (0, FMS, Act::Create(b"NONE"), "InvalidMode Empty"),
        (0, FMS, Act::Create(b"ALT"), "InvalidMode Empty"),
        (0, FMS, Act::Write(0, &[]), "InvalidParam Empty"),
        (
            0,
            FMS,
            Act::Write(3, &[1, 2, 3, 4, 5]),
            "InvalidParam Empty",
        ),
        (0, DISP, Act::Write(1, &[]), "InvalidMode Empty"),
        (
            0,
            DISP,
            Act::Write(1, &[1, 2, 3, 4, 5]),
            "InvalidMode Empty",
        ),
        (0, FMS, Act::Write(1, &[]), "InvalidParam Empty"),
        (
            0,
            FMS,
            Act::Write(1, &[1, 2, 3, 4, 5]),
            "InvalidConfig Empty",
        ),
    ];
    let mut module = created(alloc)?;
    first_other(alloc, &mut module, Mode::Normal, &steps)
}

fn other_of_reads(alloc: Global) -> Result<Option<usize>, Fail> {
    let steps: [(u32, PartitionId, Act<'_>, &str); 9] = [
        (0, DISP, Act::Read(0), "InvalidParam Empty"),
        (0, FMS, Act::Read(1), "InvalidMode Empty"),
        (0, DISP, Act::Read(1), "NoAction State(EmptyPort)"),
        (0, FMS, Act::Status(2), "InvalidParam Empty"),
        (0, DISP, Act::ReadLater(2, 0), "InvalidParam Empty"),
        (0, FMS, Act::ReadLater(1, 0), "InvalidMode Empty"),
        (0, DISP, Act::ReadLater(1, 0), "NoAction State(EmptyPort)"),
        (0, FMS, Act::Write(1, &[1, 2, 3, 4]), "NoError Empty"),
        (0, DISP, Act::ReadLater(1, 0), "NoAction State(NewMessage)"),
    ];
    let mut module = created(alloc)?;
    first_other(alloc, &mut module, Mode::Normal, &steps)
}

#[test]
fn calls_are_refused_for_their_first_reason(rt: HostRuntime) -> Result<(), Fail> {
    assert_eq!(rt; other_of_idle(rt.alloc())?, None);
    assert_eq!(rt; other_of_writes(rt.alloc())?, None);
    assert_eq!(rt; other_of_reads(rt.alloc())?, None);
    Ok(())
}

#[test]
fn a_restart_forgets_the_ports_of_its_partition_alone(rt: HostRuntime) -> Result<(), Fail> {
    let alloc = rt.alloc();
    let mut module = Module::start(alloc)?;
    let before: [(u32, PartitionId, Act<'_>, &str); 3] = [
        (0, FMS, Act::Create(b"ALT"), "NoError Number(1)"),
        (0, DISP, Act::Create(b"ALT"), "NoError Number(1)"),
        (0, FMS, Act::Write(1, &[7]), "NoError Empty"),
    ];
    let after: [(u32, PartitionId, Act<'_>, &str); 3] = [
        (0, FMS, Act::Write(1, &[8]), "InvalidParam Empty"),
        (
            0,
            DISP,
            Act::Read(1),
            "NoError Message { updated: NewMessage, validity: Valid, bytes: Bytes { content: [7] } }",
        ),
        (0, FMS, Act::Create(b"ALT"), "NoError Number(1)"),
    ];
    assert_eq!(rt;
        first_other(alloc, &mut module, Mode::ColdStart, &before)?,
        None
    );
    module.restart(FMS);
    assert_eq!(rt;
        first_other(alloc, &mut module, Mode::ColdStart, &after)?,
        None
    );
    Ok(())
}
