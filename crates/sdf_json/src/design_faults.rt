//! The faults of designs as values.

ghost use Rattle.std.specs.Prelude.{◌≡◌, ◌∷◌, [], IfOk, codes, string_bytes};
ghost use Rattle.serde_json.specs.Data.{string};
ghost use Rattle.serde_json.specs.View.{view};
ghost use Rattle.sdf_json.specs.Values.{natural};
ghost use Rattle.sdf_json.specs.FaultMembers.{told};
ghost use Rattle.sdf_json.specs.DesignFaults.{graph_value, side_word, open_value, net_value, document_value};
ghost use Rattle.sdf_json.specs.DesignFaults.{file_value};

use crate::fault_members::{at, at_key, at_place, number_and_name, plain_fault};
use crate::values::{put_number, put_text};
use sdf_actor::{NetFault, Side};
use sdf_document::DocumentFault;
use sdf_file::FileFault;
use sdf_graph::GraphFault;
use serde_json::Value;
use std::alloc::{AllocError, Global};

fn graph_value(alloc: Global, fault: &GraphFault) -> Result<Value, AllocError>
    ensures { IfOk result (λ v. view v ≡ graph_value fault.now) }
{
    match fault {
        GraphFault::OutOfMemory => plain_fault(alloc, 1, "OutOfMemory"),
        GraphFault::ActorCount => plain_fault(alloc, 2, "ActorCount"),
        GraphFault::ChannelCount => plain_fault(alloc, 3, "ChannelCount"),
        GraphFault::BadEnd { channel } => at(alloc, 4, "BadEnd", "link", *channel),
        GraphFault::BadRate { channel } => at(alloc, 5, "BadRate", "link", *channel),
        GraphFault::InitialCount { channel } => at(alloc, 6, "InitialCount", "link", *channel),
        GraphFault::CycleLength { channel } => at(alloc, 63, "CycleLength", "link", *channel),
        GraphFault::NotConnected { actor } => at(alloc, 7, "NotConnected", "actor", *actor),
        GraphFault::Inconsistent { channel, .. } => at(alloc, 8, "Inconsistent", "link", *channel),
        GraphFault::PeriodTooLong => plain_fault(alloc, 9, "PeriodTooLong"),
    }
}

fn side_word(side: Side) -> &'static str
    ensures { result.now ≡ side_word side }
{
    match side {
        Side::Input => "input",
        Side::Output => "output",
    }
}

fn open_value(alloc: Global, actor: usize, side: &str, port: usize) -> Result<Value, AllocError>
    ensures { IfOk result (λ v. view v ≡ open_value actor side.now port) }
{
    let mut members = number_and_name(alloc, 22, "PortOpen")?;
    put_number(&mut members, alloc, "actor", actor as u64)?;
    put_text(&mut members, alloc, "side", side)?;
    put_number(&mut members, alloc, "port", port as u64)?;
    Ok(Value::Object(members))
}

fn net_value(alloc: Global, fault: &NetFault) -> Result<Value, AllocError>
    ensures { IfOk result (λ v. view v ≡ net_value fault.now) }
{
    match fault {
        NetFault::OutOfMemory => plain_fault(alloc, 1, "OutOfMemory"),
        NetFault::Graph(fault) => graph_value(alloc, fault),
        NetFault::NoPort { link } => at(alloc, 20, "NoPort", "link", *link),
        NetFault::PortTwice { link } => at(alloc, 21, "PortTwice", "link", *link),
        NetFault::PortOpen { actor, side, port } => {
            open_value(alloc, *actor, side_word(*side), *port)
        }
        NetFault::ExtTwice { actor } => at(alloc, 23, "ExtTwice", "actor", *actor),
        NetFault::InputRates { actor } => at(alloc, 24, "InputRates", "actor", *actor),
        NetFault::OutputRates { actor } => at(alloc, 25, "OutputRates", "actor", *actor),
        NetFault::NoInput => plain_fault(alloc, 26, "NoInput"),
        NetFault::NoOutput { channel } => at(alloc, 27, "NoOutput", "channel", *channel),
    }
}

fn port_value(alloc: Global, link: usize, key: &str) -> Result<Value, AllocError>
    ensures { IfOk result (λ v. view v ≡
        told 57 (codes "BadPort") ((codes "link", natural link) ∷ (codes "key", string key.now) ∷ [])) }
{
    let mut members = number_and_name(alloc, 57, "BadPort")?;
    put_number(&mut members, alloc, "link", link as u64)?;
    put_text(&mut members, alloc, "key", key)?;
    Ok(Value::Object(members))
}

fn no_file_value(alloc: Global, name: &str) -> Result<Value, AllocError>
    ensures { IfOk result (λ v. view v ≡ told 58 (codes "NoFile") ((codes "file", string name.now) ∷ [])) }
{
    let mut members = number_and_name(alloc, 58, "NoFile")?;
    put_text(&mut members, alloc, "file", name)?;
    Ok(Value::Object(members))
}

fn document_value(alloc: Global, fault: &DocumentFault) -> Result<Value, AllocError>
    ensures { IfOk result (λ v. view v ≡ document_value fault.now) }
{
    match fault {
        DocumentFault::ActorCount => plain_fault(alloc, 2, "ActorCount"),
        DocumentFault::ChannelCount => plain_fault(alloc, 3, "ChannelCount"),
        DocumentFault::KitValue(place, key) => at_key(alloc, 28, "KitValue", place, key),
        DocumentFault::NotToml(place) => at_place(alloc, 49, "NotToml", place),
        DocumentFault::Format(place) => at_place(alloc, 50, "Format", place),
        DocumentFault::UnknownKey(place, key) => {
            at_key(alloc, 51, "UnknownKey", place, key.as_str())
        }
        DocumentFault::MissingKey(place, key) => at_key(alloc, 52, "MissingKey", place, key),
        DocumentFault::WrongType(place, key) => at_key(alloc, 53, "WrongType", place, key),
        DocumentFault::BadName(place, key) => at_key(alloc, 54, "BadName", place, key),
        DocumentFault::NameTwice(actor) => at(alloc, 55, "NameTwice", "actor", *actor),
        DocumentFault::UnknownKind(actor) => at(alloc, 56, "UnknownKind", "actor", *actor),
        DocumentFault::BadPort(link, key) => port_value(alloc, *link, key),
        DocumentFault::NoFile(name) => no_file_value(alloc, name.as_str()),
    }
}

pub(crate) fn file_value(alloc: Global, fault: &FileFault) -> Result<Value, AllocError>
    ensures { IfOk result (λ v. view v ≡ file_value fault.now) }
{
    match fault {
        FileFault::OutOfMemory => plain_fault(alloc, 1, "OutOfMemory"),
        FileFault::Document(fault) => document_value(alloc, fault),
        FileFault::Net(fault) => net_value(alloc, fault),
    }
}
