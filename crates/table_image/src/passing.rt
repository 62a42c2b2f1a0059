//! Looks through the bytes of an image without an allocation.

ghost use Rattle.std.specs.Prelude.{◌≡◌, Ok, Err, length, IfErr, OnOk};
ghost use Rattle.at_base.specs.Reading.{read};
ghost use Rattle.table_image.specs.Contexts as spec;
ghost use Rattle.table_image.specs.Flaws.{faults, GoesPast};
ghost use Rattle.table_image.specs.Internet.{Internet};
ghost use Rattle.table_image.specs.Reading.{image_at};
ghost use Rattle.table_image.specs.Spelling.{front_spelling, image_spelling};

use crate::cable::Cable;
use crate::context::Context;
use crate::count::CountSize;
use crate::flaw::Fault;
use crate::input::{byte_within, magic_at, wrong};
use crate::item::pass_counted;
use crate::node::Node;
use crate::router::Router;
use crate::version::Version;
use at_base::Cause;
use at_base::limits::{MAX_CABLES, MAX_NODES, MAX_ROUTERS};

// Reads past the head and the cables without an allocation, and returns what the parts after them
// may refer to.
#[tactic(auto, unfolding(crate::specs::Spelling::front_spelling))]
fn pass_front(bytes: &[u8]) -> Result<(Context, &[u8]), Fault>
    ensures { GoesPast (λ f. spec.with_cables (length f.1) (spec.nothing f.0)) (λ x. (x.0, x.1.now))
        result (read faults front_spelling bytes.now) }
{
    let (_magic, rest) = magic_at(bytes)?;
    let (number, rest) = byte_within(rest, 1, 2, Cause::Version)?;
    let context = Context::nothing(Version::of(number));
    let (cables, rest) = pass_counted::<Cable>(CountSize::One, MAX_CABLES, context, rest)?;
    Ok((context.with_cables(cables), rest))
}

#[tactic(auto, unfolding(crate::specs::Spelling::image_spelling))]
fn pass_image(bytes: &[u8]) -> Result<(usize, &[u8]), Fault>
    ensures { GoesPast (λ i. length i.cables) (λ x. (x.0, x.1.now)) result
        (read faults image_spelling bytes.now) }
{
    let (context, rest) = pass_front(bytes)?;
    let (_routers, rest) = pass_counted::<Router>(CountSize::One, MAX_ROUTERS, context, rest)?;
    let (_nodes, rest) = pass_counted::<Node>(CountSize::One, MAX_NODES, context, rest)?;
    Ok((context.cables, rest))
}

/// Reads past the image that the bytes spell, without an allocation: whether they spell one, and
/// their first fault if they don't.
#[tactic(auto, unfolding(crate::specs::Reading::image_at))]
pub fn look_through(bytes: &[u8]) -> Result<(), Fault>
    ensures spells { OnOk result ((i : Internet) × (image_at bytes.now ≡ Ok i)) }
    ensures flawed { IfErr result (λ f. image_at bytes.now ≡ Err f) }
{
    let (_, rest) = pass_image(bytes)?;
    if !rest.is_empty() {
        return Err(wrong(rest, Cause::Trailing));
    }
    Ok(())
}
