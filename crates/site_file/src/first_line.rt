//! The first line, and its first wrong member where it says no site.
ghost use Rattle.std.specs.Prelude.{◌≡◌, Err, IfOk, option_map};
ghost use Rattle.std.specs.Option.{ok_or};
ghost use Rattle.std.specs.Result.{result_err};
ghost use Rattle.serde_json.specs.Data.{Data};
ghost use Rattle.serde_json.specs.View.{view};
ghost use Rattle.site_line.specs.Site.{IsJsonOf, IsNoSite};
ghost use Rattle.site_file.specs.Addition.{value_in};
ghost use Rattle.site_file.specs.SiteFile.{site_wrong, site_value_in};
ghost use Rattle.site_file.specs.inside.{SaysFirst};
ghost use Rattle.site_file.specs.declared.wrong.LineWrong.TheVariants.{NotJson};

use crate::wrong::{LineWrong, NoAddition};
use page_tree::NoMemory;
use serde_json::{Category, Value};
use site_line::{SiteFault, SiteParts, refused_member};
use std::alloc::{AllocError, Global};
use std::hash::RandomState;

/// What the first line says, a site; else what is wrong with it.
pub(crate) fn read_first(
    alloc: Global,
    keys: RandomState,
    line: &[u8],
) -> Result<SiteParts, NoAddition>
    ensures { SaysFirst line.now result }
{
    match SiteParts::read(alloc, keys, line) {
        Ok(parts) => Ok(parts),
        Err(SiteFault::NoMemory) => Err(NoAddition::NoMemory),
        Err(SiteFault::NotJson) => Err(NoAddition::Wrong(LineWrong::NotJson)),
        Err(SiteFault::BadMember) => Err(refused_first(alloc, line)),
    }
}

// What is wrong with it, where it is a value of no site. It is read once more: nothing hangs on how long a refusal takes.
fn refused_first(alloc: Global, line: &[u8]) -> NoAddition
    requires { (d : Data) × IsJsonOf line.now d × IsNoSite d }
    ensures { SaysFirst line.now (Err result) }
{
    let Ok(wrong) = first_wrong(alloc, line) else {
        return NoAddition::NoMemory;
    };
    match wrong {
        Some(why) => NoAddition::Wrong(why),
        None => unreachable!(),
    }
}

// What is wrong with it, if anything.
fn first_wrong(alloc: Global, line: &[u8]) -> Result<Option<LineWrong>, NoMemory>
    ensures { IfOk result (λ why. why ≡ result_err (site_value_in line.now)) }
{
    let read = first_value(alloc, line)?;
    match read {
        None => Ok(Some(LineWrong::NotJson)),
        Some(value) => value_wrong(alloc, &value),
    }
}

fn first_value(alloc: Global, line: &[u8]) -> Result<Option<Value>, NoMemory>
    ensures { IfOk result (λ value. value_in line.now ≡ ok_or (option_map view value) NotJson) }
{
    match Value::from_slice(alloc, line) {
        Ok(value) => Ok(Some(value)),
        Err(e) => match e.classify() {
            Category::Memory => Err(AllocError),
            _ => Ok(None),
        },
    }
}

fn value_wrong(alloc: Global, value: &Value) -> Result<Option<LineWrong>, NoMemory>
    ensures { IfOk result (λ why. why ≡ site_wrong (view value.now)) }
{
    if !value.is_object() {
        return Ok(Some(LineWrong::NotOne));
    }
    match refused_member(alloc, value)? {
        Some(which) => Ok(Some(LineWrong::First(which))),
        None => Ok(None),
    }
}
