//! The reports of the manager, each with its lines in the trace.

ghost use Rattle.std.specs.Prelude.{◌≡◌, ◌++◌, [], OnOk, IfSome, is_some};
ghost use Rattle.std.specs.List.{flat_map};
ghost use Rattle.world_spec.specs.declared.Effect.TheVariants as effect;
ghost use Rattle.world_spec.specs.Trace.{copy_line, alarm_line, line_text};
ghost use Rattle.trace_lines.specs.Reports.{report_lines, reports_text, told_text};

use crate::lines::Lines;
use crate::texts::{push_entry, push_line, push_row, push_took_line};
use alarm_log::AlarmTable;
use manager_spec::Report;
use mib_upload::MibCopy;
use olt_manager::Manager;
use omci_core::NoMemory;
use world_spec::Effect;

/// Appends a line for each entity of a copy.
fn push_copy(out: &mut Lines, event: u64, copy: &MibCopy) -> Result<(), NoMemory>
    ensures lines { OnOk result (out.new ≡ out.old ++ flat_map (copy_line event) copy.now) }
{
    for place in 0..copy.len() {
        let entry = copy.entry(place);
        push_entry(out, event, entry.entity, entry.mask.0, entry.values)?;
    }
    Ok(())
}

/// Appends a line for each entity of a table that has an alarm.
fn push_table(out: &mut Lines, event: u64, table: &AlarmTable) -> Result<(), NoMemory>
    ensures lines { OnOk result (out.new ≡ out.old ++ flat_map (alarm_line event) table.now.rows) }
{
    for place in 0..table.len() {
        let (entity, bitmap) = table.entry(place);
        push_row(out, event, entity, &bitmap)?;
    }
    Ok(())
}

/// Appends the lines of a report: the copy's after that of a resynchronisation, and the table's
/// after that of an audit.
fn push_report(
    manager: &Manager,
    report: Report,
    event: u64,
    out: &mut Lines,
) -> Result<(), NoMemory>
    ensures lines { OnOk result (out.new ≡ out.old
        ++ report_lines event manager.now.manager.copy manager.now.manager.table.rows report) }
{
    if let Report::Took { reply } = &report {
        push_took_line(out, event, reply)?;
        return Ok(());
    }
    push_line(out, event, &Effect::Reported(report))?;
    match report {
        Report::Synced { .. } => {
            if let Some(copy) = manager.copy() {
                push_copy(out, event, copy)?;
            }
        }
        Report::Audited { .. } => push_table(out, event, manager.alarms())?,
        _ => {}
    }
    Ok(())
}

/// Takes the manager's reports out, and appends the lines of each in the event of that number.
/// After want of memory some reports may have been taken out, and a front of the lines appended.
pub fn push_reports(manager: &mut Manager, event: u64, out: &mut Lines) -> Result<(), NoMemory>
    ensures manager { OnOk result (manager.new
        ≡ record manager.old { manager = record manager.old.manager { reports = [] } }) }
    ensures lines { OnOk result (out.new ≡ out.old
        ++ reports_text event manager.old.manager.copy manager.old.manager.table.rows
        manager.old.manager.reports) }
{
    while let Some(report) = manager.report() {
        push_report(manager, report, event, out)?;
    }
    Ok(())
}
