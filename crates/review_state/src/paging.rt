//! A list is shown by pages.
ghost use Rattle.std.specs.Prelude.{◌≡◌, ◌+◌, ◌-◌, ◌<◌, ◌^◌, length, if◌then◌else◌, IfOk, OnOk};
ghost use Rattle.review_state.specs.Paging.{marked, shown_of};
ghost use Rattle.review_state.specs.inside.{with_shown};

use page_tree::NoMemory;
use std::alloc::Global;

/// A page of a list: the places that it shows, and how many there are in all.
#[derive(Debug, Drop)]
pub struct ShownPage {
    pub places: Vec<usize>,
    pub count: usize,
}

/// Of the places that are marked at most so many, from that one on.
pub fn page_of(
    alloc: Global,
    marks: &[bool],
    from: usize,
    most: usize,
) -> Result<ShownPage, NoMemory>
    ensures places { IfOk result (λ page. page.places.items ≡ shown_of from most (marked marks.now)) }
    ensures count { IfOk result (λ page. page.count ≡ length (marked marks.now)) }
{
    let mut page = ShownPage {
        places: Vec::new(alloc),
        count: 0,
    };
    for place in 0..marks.len() {
        pass(&mut page, marks[place], from, most, place)?;
    }
    Ok(page)
}

// That place stands behind those before.
fn pass(
    page: &mut ShownPage,
    is_marked: bool,
    from: usize,
    most: usize,
    place: usize,
) -> Result<(), NoMemory>
    requires { page.old.count < 2 ^ 64 - 1 }
    ensures count { OnOk result (page.new.count ≡ page.old.count + (if is_marked then 1 else 0)) }
    ensures places { OnOk result (page.new.places.items ≡ with_shown is_marked from most place page.old) }
{
    if !is_marked {
        return Ok(());
    }
    if from <= page.count && page.places.len() < most {
        page.places.push(place)?;
    }
    page.count += 1;
    Ok(())
}
