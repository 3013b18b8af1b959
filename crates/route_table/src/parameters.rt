//! The parts of a path that stand for a route's parameters.
ghost use Rattle.std.specs.Prelude.{◌≡◌, ◌++◌, map, IfOk, OnOk};
ghost use Rattle.route_table.specs.Segments.{parts_of};
ghost use Rattle.route_table.specs.Texts.{segments_in, is_parameter, picked, picked_one};

use std::alloc::{AllocError, Global};

/// The parts of a path that stand where the text of a route has parameters.
pub(crate) fn parameters<'a>(
    alloc: Global,
    route: &str,
    path: &'a [u8],
) -> Result<Vec<&'a [u8]>, AllocError>
    ensures { IfOk result (λ found. map (λ part. part.now) found.items ≡ picked (segments_in route.now) (parts_of path.now)) }
{
    let pieces = parts(alloc, route.as_bytes())?;
    let parts = parts(alloc, path)?;
    let mut found = Vec::new(alloc);
    for place in 0..pieces.len().min(parts.len()) {
        add(&mut found, pieces[place], parts[place])?;
    }
    Ok(found)
}

/// Adds a part of a path, where the part of the route's text is a parameter.
fn add<'a>(found: &mut Vec<&'a [u8]>, piece: &[u8], part: &'a [u8]) -> Result<(), AllocError>
    ensures { OnOk result (map (λ part. part.now) found.new.items ≡ map (λ part. part.now) found.old.items ++ picked_one (is_parameter piece.now) part.now) }
{
    if is_parameter(piece) {
        found.push(part)?;
    }
    Ok(())
}

/// The parts of a path, between its slashes.
fn parts<'a>(alloc: Global, path: &'a [u8]) -> Result<Vec<&'a [u8]>, AllocError>
    ensures { IfOk result (λ parts. map (λ part. part.now) parts.items ≡ parts_of path.now) }
{
    path.split(|b| *b == b'/').collect::<Vec<_>>(alloc)
}

/// Whether a part of a route's text is a parameter.
fn is_parameter(piece: &[u8]) -> bool
    ensures { result ≡ is_parameter piece.now }
{
    piece.first() == Some(&b'{')
}
