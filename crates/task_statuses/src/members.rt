//! Members that are written, each a key with its document.
ghost use Rattle.std.specs.Prelude.{◌≡◌, [], ◌∷◌, ◌++◌, OnOk, pos};
ghost use Rattle.farm_text.specs.Document.{text as plain_text, whole};
ghost use Rattle.farm_text.specs.Slug.{slug_text};
ghost use Rattle.task_statuses.specs.Statuses.{moment_doc};
ghost use Rattle.task_statuses.specs.Tokens.{tokens_of, tokens_of_members};

use farm_text::{Moment, SlugId};
use json::Writer;
use std::alloc::AllocError;

/// Writes a moment.
fn write_moment(moment: Moment, out: &mut Writer) -> Result<(), AllocError>
    ensures ok { OnOk result (out.new.tokens ≡ out.old.tokens ++ tokens_of (moment_doc moment)) }
    ensures before { out.new.before ≡ out.old.before }
{
    // Each moment lies where the calendar has years of four digits.
    let _millis = moment.millis();
    moment.write_to(out)
}

/// Writes a member with a moment.
pub fn moment_member(name: &str, moment: Moment, out: &mut Writer) -> Result<(), AllocError>
    ensures ok { OnOk result (out.new.tokens ≡ out.old.tokens ++ tokens_of_members ((name.now, moment_doc moment) ∷ [])) }
    ensures before { out.new.before ≡ out.old.before }
{
    out.key(name)?;
    write_moment(moment, out)
}

/// Writes a member with a text.
pub fn text_member(name: &str, text: &str, out: &mut Writer) -> Result<(), AllocError>
    ensures ok { OnOk result (out.new.tokens ≡ out.old.tokens ++ tokens_of_members ((name.now, plain_text text.now) ∷ [])) }
    ensures before { out.new.before ≡ out.old.before }
{
    out.key(name)?;
    out.string(text)
}

/// Writes a member with an id.
pub fn id_member(name: &str, id: SlugId, out: &mut Writer) -> Result<(), AllocError>
    ensures ok { OnOk result (out.new.tokens ≡ out.old.tokens ++ tokens_of_members ((name.now, plain_text (slug_text id)) ∷ [])) }
    ensures before { out.new.before ≡ out.old.before }
{
    out.key(name)?;
    id.write_to(out)
}

/// Writes a member with a number.
pub fn number_member(name: &str, number: u64, out: &mut Writer) -> Result<(), AllocError>
    ensures ok { OnOk result (out.new.tokens ≡ out.old.tokens ++ tokens_of_members ((name.now, whole (pos number)) ∷ [])) }
    ensures before { out.new.before ≡ out.old.before }
{
    out.key(name)?;
    out.u64(number)
}
