//! Calls that return a design or a plan.

use crate::files::DesignFiles;
use crate::{TURNS, print_turn};
use anyhow::Result;
use sdf_faults::Fault;
use sdf_file::{Design, FileFault, design_files, read_design};
use sdf_options::Options;
use sdf_plan::Plan;
use sdf_plan::planning::plan;
use sdf_prec::Table;
use sdf_texts::check_text;
use std::fmt::Display;

fn print_fault(rt: &impl Print, fault: &impl Display) -> Result<()> {
    Ok(println!(rt; "{fault}")?)
}

fn print_names(rt: &impl Print, names: &[String]) -> Result<()> {
    for name in names {
        println!(rt; "file {name}")?;
    }
    Ok(())
}

fn show_names(rt: &impl Print, answer: Result<Vec<String>, FileFault>) -> Result<()> {
    let shown = match &answer {
        Ok(names) => print_names(rt, names),
        Err(fault) => print_fault(rt, fault),
    };
    drop(answer);
    shown
}

fn print_design<R: AllocGlobal + Print>(rt: &R, design: &Design) -> Result<()> {
    println!(rt; "design")?;
    let text = check_text(rt.alloc(), design)?;
    Ok(print!(rt; "{text}")?)
}

fn show_design<R: AllocGlobal + Print>(rt: &R, answer: Result<Design, FileFault>) -> Result<()> {
    let shown = match &answer {
        Ok(design) => print_design(rt, design),
        Err(fault) => print_fault(rt, fault),
    };
    drop(answer);
    shown
}

fn print_table(rt: &impl Print, table: &Table) -> Result<()> {
    for i in 0..table.rows() {
        let row = table.row(i);
        println!(rt; "row {row:?}")?;
    }
    Ok(())
}

fn print_plan(rt: &impl Print, plan: &Plan) -> Result<()> {
    let order = plan.period().order();
    println!(rt; "order {order:?}")?;
    match plan.table() {
        Some(table) => print_table(rt, &table.table),
        None => Ok(()),
    }
}

fn show_plan(rt: &impl Print, answer: Result<Plan, Fault>) -> Result<()> {
    let shown = match &answer {
        Ok(plan) => print_plan(rt, plan),
        Err(fault) => print_fault(rt, fault),
    };
    drop(answer);
    shown
}

/// Prints the names of the coefficient files, twice.
pub(crate) fn files_twice<R: AllocGlobal + Print>(rt: &R, sources: &DesignFiles) -> Result<()> {
    for turn in TURNS {
        print_turn(rt, turn)?;
        show_names(rt, design_files(rt.alloc(), &sources.graph))?;
    }
    Ok(())
}

/// Reads the design and prints it, twice.
pub(crate) fn read_twice<R: AllocGlobal + Print>(rt: &R, sources: &DesignFiles) -> Result<()> {
    for turn in TURNS {
        print_turn(rt, turn)?;
        show_design(rt, read_design(rt.alloc(), &sources.graph, &sources.files))?;
    }
    Ok(())
}

/// Reads the design, and then plans it and prints the plan, twice.
pub(crate) fn plan_twice<R: AllocGlobal + Print>(
    rt: &R,
    sources: &DesignFiles,
    options: &Options,
) -> Result<()> {
    let design = read_design(rt.alloc(), &sources.graph, &sources.files)?;
    show_plans(rt, &design, options)
}

/// Plans `design` and prints the plan, twice.
fn show_plans<R: AllocGlobal + Print>(rt: &R, design: &Design, options: &Options) -> Result<()> {
    for turn in TURNS {
        print_turn(rt, turn)?;
        show_plan(rt, plan(rt.alloc(), design, options))?;
    }
    Ok(())
}
