// The sampling calls.
ghost use Rattle.std.specs.Prelude.{◌≡◌, ℕ, ◌<◌, ◌≤◌, length, IfNone, IfSome, MatchResult, Some};
ghost use Rattle.apex_types.specs.Rows.{Rows};
ghost use Rattle.apex_model.specs.Accepted.{IsAccepted};
ghost use Rattle.apex_model.specs.Channels as channels;
ghost use Rattle.apex_model.specs.Channels.{PortSystem, Sample, channel_in, sampling_service, sampling_step};
ghost use Rattle.apex_model.specs.Outcomes.{accepted, reply_of, state_after};
ghost use Rattle.service_parts.specs.Told.{IsTellable};
ghost use Rattle.sampling_ext.specs.Ends.{end_of};
ghost use Rattle.sampling_ext.specs.Standing.{Stands, IsServing, IsOfTable};
ghost use Rattle.sampling_ext.specs.Steps.{IsServed, LeadsTo, LeadsToNone, HasMessage, HasNoMessage};

use crate::channel::Channel;
use crate::port::ChannelEnd;
use crate::ports::Ports;
use apex_types::{
    ChannelRow, Mode, PartitionId, Reply, ReturnCode, SamplingCall, Table, Updated, Validity,
    Values,
};
use service_parts::{bytes_of, is_idle, is_normal, refused, refused_with, success};

/// Which end of which channel a port is.
#[derive(Clone, Copy)]
struct Place {
    channel: usize,
    end: ChannelEnd,
}

/// Where a partition's created port of this id stands, with the row of its channel.
fn on_port<'t>(
    table: &'t Table,
    ports: &Ports,
    p: PartitionId,
    id: u32,
) -> Option<(Place, &'t ChannelRow)>
    requires of_table { IsOfTable table.now ports.now }
    ensures none { IfNone result (LeadsToNone table.now ports.now.system p.0 id) }
    ensures within { IfSome result (λ found. found.0.channel < length ports.now.system.channels) }
    ensures some { IfSome result (λ found. LeadsTo table.now ports.now.system p.0 id found.0.channel (end_of found.0.end) found.1.now) }
{
    if id == 0 {
        return None;
    }
    let k = ports.number_of(p, id as usize - 1)?;
    if !ports.is_created(k) {
        return None;
    }
    let port = ports.port(k);
    let row = table.channels().get(port.channel())?;
    let place = Place {
        channel: port.channel(),
        end: port.end(),
    };
    Some((place, row))
}

/// CREATE_SAMPLING_PORT: the port's id.
fn create_port(ports: &mut Ports, p: PartitionId, mode: Mode, name: &[u8]) -> Reply
    requires few { length ports.old.ports ≤ 288 }
    ensures { (table : Rows) → IsOfTable table ports.old → IsServed (channels.create_port table ports.old.system p.0 mode name.now) ports.old ports.new result }
{
    if is_normal(mode) {
        return refused(ReturnCode::InvalidMode);
    }
    let Some(place) = ports.place_named(p, name) else {
        return refused(ReturnCode::InvalidConfig);
    };
    let Some(k) = ports.number_of(p, place) else {
        return refused(ReturnCode::InvalidConfig);
    };
    if ports.is_created(k) {
        return refused(ReturnCode::NoAction);
    }
    ports.mark_created(k);
    success(Values::Number(place as u32 + 1))
}

/// Puts a message into a channel, if the port is its source and the message is neither empty nor too long.
fn write_at_end(ports: &mut Ports, now: u32, place: Place, row: &ChannelRow, bytes: &[u8]) -> Reply
    requires within { place.channel < length ports.old.system.channels }
    requires size { row.now.size ≤ 1024 }
    ensures { IsServed (channels.write_at_end ports.old.system now place.channel row.now bytes.now (end_of place.end)) ports.old ports.new result }
{
    if let ChannelEnd::Destination(_) = place.end {
        return refused(ReturnCode::InvalidMode);
    }
    if bytes.is_empty() {
        return refused(ReturnCode::InvalidParam);
    }
    if bytes.len() > row.size as usize {
        return refused(ReturnCode::InvalidConfig);
    }
    ports.write(place.channel, now, bytes);
    success(Values::Empty)
}

/// WRITE_SAMPLING_MESSAGE.
fn write_sampling_message(
    table: &Table,
    ports: &mut Ports,
    now: u32,
    p: PartitionId,
    id: u32,
    bytes: &[u8],
) -> Reply
    requires accepted { IsAccepted table.now }
    requires of_table { IsOfTable table.now ports.old }
    ensures { IsServed (channels.write_sampling_message table.now ports.old.system now p.0 id bytes.now) ports.old ports.new result }
{
    let Some((place, row)) = on_port(table, ports, p, id) else {
        return refused(ReturnCode::InvalidParam);
    };
    write_at_end(ports, now, place, row, bytes)
}

/// Whether a message of this time is no older than the refresh period.
fn validity_at(now: u32, row: &ChannelRow, time: u32) -> Validity
    ensures { (sample : Sample) → sample.time ≡ time → result ≡ channels.validity_at now row.now sample }
{
    if now.saturating_sub(time) <= row.refresh {
        Validity::Valid
    } else {
        Validity::Invalid
    }
}

/// Which destination a port is and when its channel's message was written, or the reply where there is none to be read.
fn message_at(ports: &Ports, place: Place) -> Result<(usize, u32), Reply>
    requires { place.channel < length ports.now.system.channels }
    ensures { MatchResult result (λ found. HasMessage ports.now.system place.channel (end_of place.end) found.0 found.1) (HasNoMessage ports.now.system place.channel (end_of place.end)) }
{
    let ChannelEnd::Destination(d) = place.end else {
        return Err(refused(ReturnCode::InvalidMode));
    };
    match ports.channel(place.channel).time() {
        None => Err(refused_with(ReturnCode::NoAction, Values::State(Updated::EmptyPort))),
        Some(time) => Ok((d, time)),
    }
}

/// Reads the message of a channel at a destination.
fn read_sample(
    ports: &mut Ports,
    now: u32,
    channel: usize,
    row: &ChannelRow,
    d: usize,
    time: u32,
) -> Reply
    requires within { channel < length ports.old.system.channels }
    ensures { (sample : Sample) → (channel_in ports.old.system channel).sample ≡ Some sample → sample.time ≡ time
        → IsServed (channels.read_sample ports.old.system now channel row.now d sample) ports.old ports.new result }
{
    let held = ports.channel(channel);
    let updated = held.updated(d);
    let validity = validity_at(now, row, time);
    let bytes = bytes_of(held.bytes());
    ports.consume(channel, d);
    success(Values::Message {
        updated,
        validity,
        bytes,
    })
}

/// READ_UPDATED_SAMPLING_MESSAGE.
fn read_updated(table: &Table, ports: &mut Ports, now: u32, p: PartitionId, id: u32) -> Reply
    requires of_table { IsOfTable table.now ports.old }
    ensures { IsServed (channels.read_updated table.now ports.old.system now p.0 id) ports.old ports.new result }
{
    let Some((place, row)) = on_port(table, ports, p, id) else {
        return refused(ReturnCode::InvalidParam);
    };
    match message_at(ports, place) {
        Err(reply) => reply,
        Ok((d, time)) => read_sample(ports, now, place.channel, row, d, time),
    }
}

/// READ_SAMPLING_MESSAGE_CONDITIONAL: only a message that is later than a time is read.
fn read_conditional(
    table: &Table,
    ports: &mut Ports,
    now: u32,
    p: PartitionId,
    id: u32,
    since: u32,
) -> Reply
    requires of_table { IsOfTable table.now ports.old }
    ensures { IsServed (channels.read_conditional table.now ports.old.system now p.0 id since) ports.old ports.new result }
{
    let Some((place, row)) = on_port(table, ports, p, id) else {
        return refused(ReturnCode::InvalidParam);
    };
    let (d, time) = match message_at(ports, place) {
        Err(reply) => return reply,
        Ok(found) => found,
    };
    if time <= since {
        let updated = ports.channel(place.channel).updated(d);
        return refused_with(ReturnCode::NoAction, Values::State(updated));
    }
    read_sample(ports, now, place.channel, row, d, time)
}

/// What a destination is told of its channel.
fn destination_status(channel: &Channel, now: u32, row: &ChannelRow, d: usize) -> Values
    ensures { (system : PortSystem) (k : ℕ) → channel.now ≡ channel_in system k
        → channels.destination_status system now k row.now d channel.now.sample ≡ accepted system result }
{
    match channel.time() {
        None => Values::EmptyStatus {
            size: row.size as u32,
            refresh: row.refresh,
        },
        Some(time) => Values::PortStatus {
            size: row.size as u32,
            refresh: row.refresh,
            updated: channel.updated(d),
            validity: validity_at(now, row, time),
            age: now.saturating_sub(time),
        },
    }
}

/// GET_SAMPLING_PORT_CURRENT_STATUS.
fn current_status(table: &Table, ports: &Ports, now: u32, p: PartitionId, id: u32) -> Reply
    requires of_table { IsOfTable table.now ports.now }
    ensures { IsServed (channels.current_status table.now ports.now.system now p.0 id) ports.now ports.now result }
{
    let Some((place, row)) = on_port(table, ports, p, id) else {
        return refused(ReturnCode::InvalidParam);
    };
    match place.end {
        ChannelEnd::Source => success(Values::SourceStatus {
            size: row.size as u32,
            refresh: row.refresh,
        }),
        ChannelEnd::Destination(d) => {
            let channel = ports.channel(place.channel);
            success(destination_status(channel, now, row, d))
        }
    }
}

/// Carries out a sampling call of a partition that isn't idle.
fn serve(
    table: &Table,
    ports: &mut Ports,
    now: u32,
    p: PartitionId,
    mode: Mode,
    call: &SamplingCall,
) -> Reply
    requires accepted { IsAccepted table.now }
    requires of_table { IsOfTable table.now ports.old }
    ensures { IsServed (sampling_service table.now ports.old.system now p.0 mode call.now) ports.old ports.new result }
{
    match call {
        SamplingCall::Create { name } => create_port(ports, p, mode, name.bytes()),
        SamplingCall::Write { id, bytes } => {
            write_sampling_message(table, ports, now, p, *id, bytes.bytes())
        }
        SamplingCall::ReadUpdated { id } => read_updated(table, ports, now, p, *id),
        SamplingCall::CurrentStatus { id } => current_status(table, ports, now, p, *id),
        SamplingCall::ReadConditional { id, time } => {
            read_conditional(table, ports, now, p, *id, *time)
        }
    }
}

/// Carries out a sampling call of a partition in a mode at a time in ticks, or refuses it. In IDLE every call is refused with
/// INVALID_MODE. A refusal changes nothing, and has a return code and no errno. The names `CREATE_SAMPLING_PORT` and
/// `WRITE_SAMPLING_MESSAGE` and the return codes are the public standard's; the other calls, the values and the order of
/// refusals are this project's own. No memory is taken.
pub fn sampling_call(
    table: &Table,
    ports: &mut Ports,
    now: u32,
    p: PartitionId,
    mode: Mode,
    call: &SamplingCall,
) -> Reply
    requires accepted { IsAccepted table.now }
    requires valid { IsServing table.now now ports.old }
    ensures valid { IsServing table.now now ports.new }
    ensures reply { (system : PortSystem) → Stands table.now ports.old system → result ≡ reply_of (sampling_step table.now system now p.0 mode call.now) }
    ensures state { (system : PortSystem) → Stands table.now ports.old system → Stands table.now ports.new (state_after system (sampling_step table.now system now p.0 mode call.now)) }
    ensures tellable { IsTellable result }
{
    if is_idle(mode) {
        return refused(ReturnCode::InvalidMode);
    }
    serve(table, ports, now, p, mode, call)
}
