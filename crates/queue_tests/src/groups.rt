//! Groups and pages of `task_groups` that were worked by hand.
use farm_text::SlugId;
use std::alloc::Global;
use std::test::Fail;
use task_groups::{Groups, Page, ReserveFault};

/// The id of the group of this number.
fn group(number: u8) -> Result<SlugId, Fail> {
    let uuid = [0, 0, 0, 0, 0, 0, 0x40, 0, 0x80, 0, 0, 0, 0, 0, 0, number];
    Ok(SlugId::of_uuid(uuid).ok_or("no id")?)
}

/// Adds the task of this row to a group, where it comes last and the group takes its scheduler. Tells whether it did.
fn add(alloc: Global, groups: &mut Groups, group: SlugId, scheduler: &str, row: u32) -> bool {
    if let Some(last) = groups.last(group)
        && last >= row
    {
        return false;
    }
    match groups.reserve(alloc, group, scheduler) {
        Ok(()) => {
            groups.join(group, scheduler, row);
            true
        }
        Err(_) => false,
    }
}

/// Tasks 0, 2, 3 and 5 in the group of number 9, and tasks 1 and 4 in that of number 7, which has the greater id first.
fn two_groups(alloc: Global) -> Result<Groups, Fail> {
    let (nine, seven) = (group(9)?, group(7)?);
    let mut groups = Groups::new(alloc);
    for row in 0..6u32 {
        let of = if row == 1 || row == 4 { seven } else { nine };
        if !add(alloc, &mut groups, of, "ci", row) {
            drop(groups);
            return Err("not added".into());
        }
    }
    Ok(groups)
}

/// Whether a page has these rows, and tells whether there are more.
fn is_page(page: Option<Page<'_>>, rows: &[u32], more: bool) -> bool {
    match page {
        Some(page) => page.rows == rows && page.more == more,
        None => false,
    }
}

/// Whether the group keeps another scheduler than this, which is the one that is told.
fn keeps(alloc: Global, groups: &mut Groups, group: SlugId, scheduler: &str, kept: &str) -> bool {
    match groups.reserve(alloc, group, scheduler) {
        Err(ReserveFault::OtherScheduler(told)) => told.as_str() == kept,
        _ => false,
    }
}

/// Whether the whole list of this group is in order of creation.
fn lists_all(groups: &Groups, nine: SlugId) -> bool {
    is_page(groups.list(nine, None, 1000), &[0, 2, 3, 5], false)
        && is_page(groups.list(nine, None, 4), &[0, 2, 3, 5], false)
}

/// Whether its pages begin behind their tokens.
fn begins_behind_tokens(groups: &Groups, nine: SlugId) -> bool {
    is_page(groups.list(nine, None, 2), &[0, 2], true)
        && is_page(groups.list(nine, Some(2), 2), &[3, 5], false)
        && is_page(groups.list(nine, Some(5), 2), &[], false)
}

/// Whether another group has its own tasks, and a third none.
fn lists_others(groups: &Groups, seven: SlugId, eight: SlugId) -> bool {
    is_page(groups.list(seven, None, 1), &[1], true)
        && is_page(groups.list(seven, Some(1), 1), &[4], false)
        && groups.list(eight, None, 1).is_none()
}

/// Whether a group keeps its scheduler.
fn keeps_its_own(alloc: Global, groups: &mut Groups, nine: SlugId) -> bool {
    keeps(alloc, groups, nine, "other", "ci")
        && add(alloc, groups, nine, "ci", 6)
        && is_page(groups.list(nine, Some(3), 3), &[5, 6], false)
}

/// What of this is so, in this order.
fn told_of(alloc: Global, groups: &mut Groups) -> Result<[bool; 4], Fail> {
    let (seven, eight, nine) = (group(7)?, group(8)?, group(9)?);
    Ok([
        lists_all(groups, nine),
        begins_behind_tokens(groups, nine),
        lists_others(groups, seven, eight),
        keeps_its_own(alloc, groups, nine),
    ])
}

#[test]
fn each_group_has_its_own_tasks_pages_and_scheduler(rt: HostRuntime) -> Result<(), Fail> {
    let mut groups = two_groups(rt.alloc())?;
    let told = told_of(rt.alloc(), &mut groups);
    drop(groups);
    assert_eq!(rt; told?, [true; 4]);
    Ok(())
}
