//! Hooks in farm files: the first rule that each breaks, and what is told of that.
use crate::files::{first_other_fault, first_other_line, is_fault};
use std::alloc::{AllocError, Global};
use std::test::Fail;

/// Files with hooks, and their first faults: clients are judged before hooks.
const FAULTS: &str =
    r#"hook = [{ group = 'g', id = 'i', task = '{}' }, { group = 'g', id = 'j', task = '{}', x = 1 }]|Hook 1 2
hook = [{ group = 'g', id = 'i', task = '{}' }, { id = 'j', task = '{}' }]|Hook 1 3
hook = [{ group = 'g', id = 'i', task = '{}' }, { group = 'g', task = '{}' }]|Hook 1 3
hook = [{ group = 'g', id = 'i', task = '{}' }, { group = 'g', id = 'j' }]|Hook 1 3
hook = [{ group = 'g', id = 'i', task = '{}' }, { group = 1, id = 'j', task = '{' }]|Hook 1 4
hook = [{ group = 'g', id = 'i', task = '{}' }, { group = 'g', id = ['j'], task = '{}' }]|Hook 1 4
hook = [{ group = 'g', id = 'i', task = '{}' }, { group = 'g', id = 'j', task = { } }]|Hook 1 4
hook = [{ group = 'g', id = 'i', task = '{}' }, { group = '', id = 'j', task = '{}' }]|Hook 1 5
hook = [{ group = 'g', id = 'i', task = '{}' }, { group = 'g/h', id = 'j', task = '{' }]|Hook 1 5
hook = [{ group = 'g', id = 'i', task = '{}' }, { group = 'g', id = '', task = '{}' }]|Hook 1 5
hook = [{ group = 'g', id = 'i', task = '{}' }, { group = 'g', id = 'j.k', task = '{}' }]|Hook 1 5
hook = [{ group = 'g', id = 'i', task = '{}' }, { group = 'g', id = 'i', task = '{}' }]|Hook 1 6
hook = [{ group = 'g', id = 'i', task = '{}' }, { group = 'g', id = 'i', task = '{' }]|Hook 1 6
hook = [{ group = 'g', id = 'i', task = '{}' }, { group = 'g', id = 'j', task = '' }]|Hook 1 8
hook = [{ group = 'g', id = 'i', task = '{}' }, { group = 'g', id = 'j', task = '{' }]|Hook 1 8
hook = [{ group = 'g', id = 'i', task = '{}' }, { group = 'g', id = 'j', task = '[1, 1.5]' }]|Hook 1 8
hook = [{ group = 'g', id = 'i', task = '{}' }, { group = 'g', id = 'j', task = '9223372036854775808' }]|Hook 1 8
hook = [{ group = 'g', id = 'i', task = '{}' }, { group = 'h', id = 'i', task = '{}' }]|none
hook = [{ group = 'g', id = 'i', task = '{}' }, { group = 'g', id = 'i/', task = '{}' }]|none
hook = [{ group = 'g', id = 'i', task = '{}' }, { group = 'A-z_9', id = 'a/b-C_0', task = ' [null, -9223372036854775808] ' }]|none
hook = 1;client = 1|Client 0 4
hook = 1|Hook 0 4
hook = [1, {}]|Hook 0 4"#;

/// The same, and what is told of them.
const LINES: &str =
    r#"[hook]|hook = a table: it is a list of tables, as [[role]], [[client]] and [[hook]] are
hook = [{ group = 'g', id = 'i', task = '{}' }, { group = 'g', id = 'i', task = '{}' }]|[[hook]] row 2 (id "i"): row 1 has this group and id, too
hook = [{ group = 'h', id = 'i', task = '{}' }, { group = 'g', id = 'i', task = '{}' }, { group = 'g', id = 'i', task = '{}' }]|[[hook]] row 3 (id "i"): row 2 has this group and id, too
hook = [{ group = 'g', id = 'i', task = '{}', when = 1 }]|[[hook]] row 1 (id "i") when = 1: not known: the keys are group, id and task
hook = [{ group = 'g', id = 'i' }]|[[hook]] row 1 (id "i") task: it is missing
hook = [{ group = 'g', id = 'i', task = 1 }]|[[hook]] row 1 (id "i") task = 1: it has to be a text
hook = [{ group = 'g/h', id = 'i', task = '{}' }]|[[hook]] row 1 (id "i") group = "g/h": a group is 1 to 1000 of [A-Za-z0-9_-]
hook = [{ group = 'g', id = 'i j', task = '{}' }]|[[hook]] row 1 (id "i j") id = "i j": an id is 1 to 1000 of [A-Za-z0-9_/-]
hook = [{ group = 'g', id = 'i', task = '[1.5]' }]|[[hook]] row 1 (id "i") task = "[1.5]": the text is no JSON of whole numbers"#;

#[test]
fn faults_of_hooks_are_found_and_told(rt: HostRuntime) -> Result<(), Fail> {
    let told = [
        first_other_fault(rt.alloc(), FAULTS)?,
        first_other_line(rt.alloc(), LINES)?,
    ];
    assert_eq!(rt; told, ["none"; 2]);
    Ok(())
}

/// Whether this is the first fault of a file with one hook, whose group and whose id have so many bytes.
fn has_fault_at(alloc: Global, group: usize, id: usize, wanted: &str) -> Result<bool, AllocError> {
    let group = "g".repeat(alloc, group)?;
    let id = "/".repeat(alloc, id)?;
    let text = format!(in alloc; "hook = [{{ group = '{group}', id = '{id}', task = '{{}}' }}]")?;
    is_fault(alloc, text.as_bytes(), wanted)
}

#[test]
fn names_have_a_thousand_bytes_at_most(rt: HostRuntime) -> Result<(), Fail> {
    let told = [
        has_fault_at(rt.alloc(), 1000, 1000, "none")?,
        has_fault_at(rt.alloc(), 1001, 1, "Hook 0 5")?,
        has_fault_at(rt.alloc(), 1, 1001, "Hook 0 5")?,
    ];
    assert_eq!(rt; told, [true; 3]);
    Ok(())
}
