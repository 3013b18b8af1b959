//! Making frames of bodies.
ghost use Rattle.std.specs.Prelude.{◌≡◌, ◌≤◌, length, IfOk};

use crate::frames::{Frame, Framed, TickFrame};
use std::alloc::{AllocError, Global};

/// The greatest length of a body to frame.
pub const BODY_LIMIT: usize = 16_777_216;

/// Frames a body of at most `BODY_LIMIT` bytes.
pub fn frame(alloc: Global, body: &[u8]) -> Result<Framed, AllocError>
    requires { length body.now ≤ BODY_LIMIT }
    ensures { IfOk result (λ f. ⟦<Framed as Frame>⟧.body f ≡ body.now) }
{
    let mut text = Vec::with_capacity(alloc, body.len() + 5)?;
    text.extend_from_slice(&(body.len() as u32).to_be_bytes())?;
    text.extend_from_slice(body)?;
    text.push(0)?;
    Ok(Framed { text })
}

/// Frames nine bytes.
pub fn frame_tick(body: [u8; 9]) -> TickFrame
    ensures { ⟦<TickFrame as Frame>⟧.body result ≡ body }
{
    let [a, b, c, d, e, f, g, h, i] = body;
    TickFrame {
        text: [0, 0, 0, 9, a, b, c, d, e, f, g, h, i, 0],
    }
}
