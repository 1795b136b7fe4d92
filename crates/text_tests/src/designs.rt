//! The JSON of a design, of its schedule, of its analysis and of the kinds of actors.

use sdf_file::{Design, read_design};
use sdf_json::{analysis_json, check_json, kinds_json, schedule_json};
use sdf_options::Options;
use std::alloc::Global;
use std::test::Fail;
use test_texts::says;

/// Blocks of two samples go in, and blocks of three come out.
const BLOCKS: &str = "format = 1
actor = [{ name = \"in\", kind = \"input\", channel = 0, block = 2 },
    { name = \"out\", kind = \"output\", channel = 0, block = 3 }]
link = [{ from = \"in\", to = \"out\" }]";

fn design(alloc: Global) -> Result<Design, Fail> {
    Ok(read_design(alloc, BLOCKS.as_bytes(), &[])?)
}

/// Returns the JSON of `BLOCKS` with `top` in place of its first line.
fn checked(alloc: Global, top: &str) -> Result<String, Fail> {
    let graph = BLOCKS.replace(alloc, "format = 1", top)?;
    let design = read_design(alloc, graph.as_bytes(), &[])?;
    Ok(check_json(alloc, &design)?)
}

/// Tests the JSON of a design without and with a rate. A `check_json` that always reports refused memory fails here.
#[test]
fn json_of_a_design(rt: HostRuntime) -> Result<(), Fail> {
    says(
        checked(rt.alloc(), "format = 1"),
        "{\"actors\":[{\"firings\":3,\"name\":\"in\"},{\"firings\":2,\"name\":\"out\"}],\"input\":6,\
         \"links\":[{\"from\":{\"actor\":\"in\",\"port\":0},\"to\":{\"actor\":\"out\",\"port\":0}}],\"output\":6,\
         \"period\":5}\n",
    )?;
    says(
        checked(rt.alloc(), "format = 1\nrate = 44100"),
        "{\"actors\":[{\"firings\":3,\"name\":\"in\"},{\"firings\":2,\"name\":\"out\"}],\"input\":6,\
         \"links\":[{\"from\":{\"actor\":\"in\",\"port\":0},\"to\":{\"actor\":\"out\",\"port\":0}}],\"output\":6,\
         \"period\":5,\"rate\":44100}\n",
    )
}

const OPTIONS: Options = Options {
    workers: 2,
    ..Options::DEFAULT
};

fn scheduled(alloc: Global) -> Result<String, Fail> {
    let design = design(alloc)?;
    Ok(schedule_json(alloc, &design, &OPTIONS)?)
}

#[test]
fn json_of_a_schedule(rt: HostRuntime) -> Result<(), Fail> {
    says(
        scheduled(rt.alloc()),
        "{\"actors\":[{\"firings\":3,\"name\":\"in\",\"worker\":0},{\"firings\":2,\"name\":\"out\",\
         \"worker\":1}],\"blocking\":1,\"links\":[{\"capacity\":6,\"from\":{\"actor\":\"in\",\"port\":0},\
         \"to\":{\"actor\":\"out\",\"port\":0}}],\"order\":[{\"actor\":\"in\",\"firings\":2},\
         {\"actor\":\"out\",\"firings\":1},{\"actor\":\"in\",\"firings\":1},{\"actor\":\"out\",\
         \"firings\":1}],\"period\":5,\"placement\":\"homed\",\"policy\":\"round\",\
         \"rows\":[[{\"actor\":\"in\",\"firing\":0},null],[{\"actor\":\"in\",\"firing\":1},null],\
         [{\"actor\":\"in\",\"firing\":2},{\"actor\":\"out\",\"firing\":0}],[null,{\"actor\":\"out\",\
         \"firing\":1}]],\"workers\":2}\n",
    )
}

fn analyzed(alloc: Global) -> Result<String, Fail> {
    let design = design(alloc)?;
    Ok(analysis_json(alloc, &design, &OPTIONS)?)
}

#[test]
fn json_of_an_analysis(rt: HostRuntime) -> Result<(), Fail> {
    says(
        analyzed(rt.alloc()),
        "{\"blocking\":1,\"bound\":4,\"links\":[{\"capacity\":6,\"from\":{\"actor\":\"in\",\"port\":0},\
         \"to\":{\"actor\":\"out\",\"port\":0}}],\"loads\":[3,2],\"makespan\":4,\"placement\":\"homed\",\
         \"policy\":\"round\",\"samples\":6,\"span\":4,\"speedup_hundredths\":125,\"work\":5,\"workers\":2}\n",
    )
}

/// Tests the JSON of the kinds against the two tables in `docs/FORMATS.md`.
#[test]
fn json_of_the_kinds(rt: HostRuntime) -> Result<(), Fail> {
    says(
        Ok(kinds_json(rt.alloc())?),
        "{\"keys\":[{\"default\":null,\"least\":0,\"most\":15,\"name\":\"processor\",\"needed\":false},\
         {\"default\":1,\"least\":1,\"most\":1000000,\"name\":\"cost\",\"needed\":false}],\"kinds\":[{\"cycle\":1,\
         \"inputs\":0,\"keys\":[{\"default\":null,\"least\":0,\"most\":7,\"name\":\"channel\",\"needed\":true},\
         {\"default\":1,\"least\":1,\"most\":1024,\"name\":\"block\",\"needed\":false}],\"name\":\"input\",\
         \"outputs\":1,\"puts\":\"block\",\"since\":1,\"takes\":0},{\"cycle\":1,\"inputs\":1,\
         \"keys\":[{\"default\":null,\"least\":0,\"most\":7,\"name\":\"channel\",\"needed\":true},{\"default\":1,\
         \"least\":1,\"most\":1024,\"name\":\"block\",\"needed\":false}],\"name\":\"output\",\"outputs\":0,\
         \"puts\":0,\"since\":1,\"takes\":\"block\"},{\"cycle\":1,\"inputs\":1,\"keys\":[{\"default\":1,\
         \"least\":1,\"most\":64,\"name\":\"up\",\"needed\":false},{\"default\":1,\"least\":1,\"most\":64,\
         \"name\":\"down\",\"needed\":false},{\"default\":null,\"least\":0,\"most\":15,\"name\":\"shift\",\
         \"needed\":true},{\"default\":null,\"least\":-32768,\"most\":32767,\"name\":\"taps\",\"needed\":true,\
         \"values\":1024}],\"name\":\"fir\",\"outputs\":1,\"puts\":\"up\",\"since\":1,\"takes\":\"down\"},\
         {\"cycle\":1,\"inputs\":1,\"keys\":[{\"default\":null,\"least\":1,\"most\":64,\"name\":\"factor\",\
         \"needed\":true}],\"name\":\"decimate\",\"outputs\":1,\"puts\":1,\"since\":1,\"takes\":\"factor\"},\
         {\"cycle\":1,\"inputs\":1,\"keys\":[{\"default\":null,\"least\":1,\"most\":64,\"name\":\"factor\",\
         \"needed\":true}],\"name\":\"interpolate\",\"outputs\":1,\"puts\":\"factor\",\"since\":1,\"takes\":1},\
         {\"cycle\":1,\"inputs\":\"ways\",\"keys\":[{\"default\":null,\"least\":2,\"most\":16,\"name\":\"ways\",\
         \"needed\":true}],\"name\":\"add\",\"outputs\":1,\"puts\":1,\"since\":1,\"takes\":1},{\"cycle\":1,\
         \"inputs\":1,\"keys\":[{\"default\":null,\"least\":2,\"most\":16,\"name\":\"ways\",\"needed\":true}],\
         \"name\":\"fork\",\"outputs\":\"ways\",\"puts\":1,\"since\":1,\"takes\":1},{\"cycle\":1,\"inputs\":1,\
         \"keys\":[{\"default\":null,\"least\":-32768,\"most\":32767,\"name\":\"gain\",\"needed\":true},\
         {\"default\":null,\"least\":0,\"most\":15,\"name\":\"shift\",\"needed\":true}],\"name\":\"gain\",\
         \"outputs\":1,\"puts\":1,\"since\":1,\"takes\":1},{\"cycle\":1,\"inputs\":1,\"keys\":[{\"default\":null,\
         \"least\":0,\"most\":65536,\"name\":\"length\",\"needed\":true}],\"name\":\"delay\",\"outputs\":1,\
         \"puts\":1,\"since\":1,\"takes\":1},{\"cycle\":1,\"inputs\":1,\"keys\":[{\"default\":null,\
         \"least\":-2147483648,\"most\":2147483647,\"name\":\"offset\",\"needed\":true},{\"default\":null,\
         \"least\":-2147483648,\"most\":2147483647,\"name\":\"values\",\"needed\":true,\"values\":65536}],\
         \"name\":\"table\",\"outputs\":1,\"puts\":1,\"since\":1,\"takes\":1},{\"cycle\":\"ways\",\"inputs\":1,\
         \"keys\":[{\"default\":null,\"least\":2,\"most\":16,\"name\":\"ways\",\"needed\":true},{\"default\":1,\
         \"least\":1,\"most\":64,\"name\":\"run\",\"needed\":false}],\"name\":\"deal\",\"outputs\":\"ways\",\
         \"puts\":\"run\",\"since\":2,\"takes\":\"run\"},{\"cycle\":\"ways\",\"inputs\":\"ways\",\
         \"keys\":[{\"default\":null,\"least\":2,\"most\":16,\"name\":\"ways\",\"needed\":true},{\"default\":1,\
         \"least\":1,\"most\":64,\"name\":\"run\",\"needed\":false}],\"name\":\"gather\",\"outputs\":1,\
         \"puts\":\"run\",\"since\":2,\"takes\":\"run\"},{\"cycle\":1,\"inputs\":1,\"keys\":[{\"default\":-32768,\
         \"least\":-32768,\"most\":32767,\"name\":\"least\",\"needed\":false},{\"default\":32767,\
         \"from\":\"least\",\"least\":-32768,\"most\":32767,\"name\":\"greatest\",\"needed\":false}],\
         \"name\":\"clip\",\"outputs\":1,\"puts\":1,\"since\":2,\"takes\":1},{\"cycle\":1,\"inputs\":1,\
         \"keys\":[{\"default\":null,\"least\":-32768,\"most\":32767,\"name\":\"value\",\"needed\":true}],\
         \"name\":\"offset\",\"outputs\":1,\"puts\":1,\"since\":2,\"takes\":1}]}\n",
    )
}
