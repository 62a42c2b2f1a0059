//! Plays an internet file, and writes its lines, its image, and its capture.

ghost use Rattle.std.specs.Prelude.{◌≡◌, ◌≢◌, ◌⊎◌, ◌++◌, ℕ, List, [], None, IfErr, IfOk, OnOk};
ghost use Rattle.std.specs.Io.KnownBytes.{Appends, IsAtEnd};
ghost use Rattle.at_base.specs.Spelling.{Spells};
ghost use Rattle.commands.specs.Outputs.{WroteImage, WrotePlay};
ghost use Rattle.commands.specs.Playing.{IsPlayOf};
ghost use Rattle.commands.specs.Streams.{Has, IsFull, IsUnplayed};
ghost use Rattle.internet_file.specs.Files.{IsFile, IsFileRefused, Planned};
ghost use Rattle.playing.specs.Captured.{world_capture};
ghost use Rattle.playing.specs.Lives.{Fills, Outgrows};
ghost use Rattle.playing.specs.Plays.{IsPlay, play_lines};
ghost use Rattle.playing.specs.declared.playing.Played.{Played as PlayedValue};
ghost use Rattle.table_image.specs.Spelling.{image_spelling};

use crate::handing::hand_over;
use crate::reading::READS;
use crate::refused::Refused;
use crate::text_input::read_text;
use at_base::{Bytes, Error};
use playing::{Played, Progress, lines_of, play, read_plan};
use std::alloc::Global;
use std::io::{Read, Write};
use table_image::{Version, write};
use text::Output;

/// A play, and what is written of it.
#[derive(Drop)]
struct Told {
    played: Played,
    lines: Vec<u8>,
    bytes: Bytes,
}

/// Plays a text as an internet file. Errors: `BadFile`, `Full`, `Memory`.
fn play_text<P: Progress>(
    alloc: Global,
    text: Vec<u8>,
    progress: &mut P,
    version: Option<Version>,
) -> Result<Played, Refused>
    ensures played { IfOk result (λ p. IsFile text.items p.world.plan
        × IsPlay version p.world.plan p) }
    ensures told { IfErr result (λ r. r.reason ≡ None) }
    ensures back { IfErr result (Has text.items) }
    ensures refused { IfErr result (λ r. IsFileRefused text.items r.error
        ⊎ (((plan : Planned) × IsFile text.items plan)
        × ((r.error ≡ Error.Full) ⊎ (r.error ≡ Error.Memory)))) }
    ensures full { IfErr result (λ r. r.error ≡ Error.Full
        → (plan : Planned) × IsFile text.items plan × (Fills plan ⊎ Outgrows version plan)) }
    ensures others { IfErr result
        (λ r. (r.error ≢ Error.ReadFault) × (r.error ≢ Error.WriteFault)) }
{
    let plan = match read_plan(alloc, text.as_slice()) {
        Ok(plan) => plan,
        Err(refused) => return Err(Refused::at_fault(refused, text)),
    };
    match play(alloc, plan, progress, version) {
        Ok(played) => Ok(played),
        Err(error) => Err(Refused::of(error)),
    }
}

/// The lines of a play and the bytes of its image. Error: `Memory`.
fn tell(alloc: Global, played: Played) -> Result<Told, Error>
    ensures played { IfOk result (λ t. t.played ≡ played) }
    ensures lines { IfOk result (λ t. t.lines.items ≡ play_lines played.world played.verdict) }
    ensures bytes { IfOk result (λ t. Spells image_spelling t.bytes played.image) }
    ensures refused { IfErr result (λ e. e ≡ Error.Memory) }
{
    let lines = match lines_of(alloc, &played) {
        Ok(lines) => lines,
        Err(error) => return Err(error),
    };
    match write(alloc, &played.image) {
        Ok(bytes) => Ok(Told {
            played,
            lines,
            bytes,
        }),
        Err(error) => Err(error),
    }
}

/// Reads the whole input, and plays it as an internet file. Errors: `ReadFault`, `BadFile`, `Full`,
/// `Memory`.
fn play_file<R: Read, P: Progress>(
    alloc: Global,
    input: &mut R,
    progress: &mut P,
    version: Option<Version>,
) -> Result<Told, Refused>
    ensures played { IfOk result (λ t. IsPlayOf version (R.remaining input.old) t.played) }
    ensures lines { IfOk result (λ t. t.lines.items ≡ play_lines t.played.world t.played.verdict) }
    ensures bytes { IfOk result (λ t. Spells image_spelling t.bytes t.played.image) }
    ensures refused { IfErr result
        (IsUnplayed (R.remaining input.old) (R.remaining input.new)) }
    ensures full { IfErr result (λ r. r.error ≡ Error.Full
        → IsFull version (R.remaining input.old)) }
    ensures unwritten { IfErr result (λ r. r.error ≢ Error.WriteFault) }
    ensures end { OnOk result (IsAtEnd (R.remaining input.new)) }
{
    let text = match read_text(alloc, input, READS) {
        Ok(text) => text,
        Err(refused) => return Err(refused),
    };
    match play_text(alloc, text, progress, version) {
        Ok(played) => match tell(alloc, played) {
            Ok(told) => Ok(told),
            Err(error) => Err(Refused::of(error)),
        },
        Err(refused) => Err(refused),
    }
}

/// Reads the whole internet file, plays it, and writes its lines; then writes the bytes of its
/// image with a second writer. The image has the version that is asked for; if none is, it has
/// version 1 unless the tables need version 2. Returns the play. Errors: `ReadFault`, `BadFile`,
/// `Full`, `Memory`, `WriteFault`.
pub fn play_bytes<R: Read, W: Write, I: Write, P: Progress>(
    alloc: Global,
    input: &mut R,
    output: &mut Output<W>,
    image: &mut Output<I>,
    progress: &mut P,
    version: Option<Version>,
) -> Result<Played, Refused>
    // For a reader whose bytes are known: they are a file; the lines of its play were written by
    // the first writer, and the bytes of its image by the second, each after the text that was
    // buffered.
    ensures printed { IfOk result (λ p. IsPlayOf version (R.remaining input.old) p
        × ((bytes : List ℕ) × Spells image_spelling bytes p.image
        × Appends (W.contents output.old.writer) (W.contents output.new.writer)
        (output.old.text.items ++ play_lines p.world p.verdict)
        × Appends (I.contents image.old.writer) (I.contents image.new.writer)
        (image.old.text.items ++ bytes))) }
    ensures refused { IfErr result
        (IsUnplayed (R.remaining input.old) (R.remaining input.new)) }
    // The error is `Full` only if one of the plan's ticks has no room, or if version 1 is asked for
    // and the tables need version 2.
    ensures full { IfErr result (λ r. r.error ≡ Error.Full
        → IsFull version (R.remaining input.old)) }
    ensures end { OnOk result (IsAtEnd (R.remaining input.new)) }
    ensures wrote { WroteImage (output.new ≡ output.old) (image.new ≡ image.old)
        (output.new.text.items ≡ []) output.old.faults output.new.faults image.old.faults
        image.new.faults result }
    // The image isn't written before all lines of the play are.
    ensures order { (image.new ≡ image.old) ⊎ ((p : PlayedValue)
        × IsPlayOf version (R.remaining input.old) p
        × Appends (W.contents output.old.writer) (W.contents output.new.writer)
        (output.old.text.items ++ play_lines p.world p.verdict)) }
    ensures empty { OnOk result ((output.new.text.items ≡ []) × (image.new.text.items ≡ [])) }
{
    let Told {
        played,
        lines,
        bytes,
    } = match play_file(alloc, input, progress, version) {
        Ok(told) => told,
        Err(refused) => return Err(refused),
    };
    match hand_over(lines.as_slice(), bytes.as_slice(), output, image) {
        Ok(()) => Ok(played),
        Err(error) => Err(Refused::of(error)),
    }
}

/// A play as by `play_bytes`, whose capture is written with a third writer, before the lines.
/// Errors: `ReadFault`, `BadFile`, `Full`, `Memory`, `WriteFault`.
pub fn capture_play<R: Read, W: Write, I: Write, C: Write, P: Progress>(
    alloc: Global,
    input: &mut R,
    output: &mut Output<W>,
    image: &mut Output<I>,
    capture: &mut Output<C>,
    progress: &mut P,
    version: Option<Version>,
) -> Result<Played, Refused>
    // For a reader whose bytes are known: they are a file; the lines of its play, the bytes of its
    // image and its capture were each written by its own writer, after the text that was buffered.
    ensures printed { IfOk result (λ p. IsPlayOf version (R.remaining input.old) p
        × ((bytes : List ℕ) × Spells image_spelling bytes p.image
        × Appends (W.contents output.old.writer) (W.contents output.new.writer)
        (output.old.text.items ++ play_lines p.world p.verdict)
        × Appends (I.contents image.old.writer) (I.contents image.new.writer)
        (image.old.text.items ++ bytes)
        × Appends (C.contents capture.old.writer) (C.contents capture.new.writer)
        (capture.old.text.items ++ world_capture p.world p.counts.items))) }
    ensures refused { IfErr result
        (IsUnplayed (R.remaining input.old) (R.remaining input.new)) }
    // The error is `Full` only if one of the plan's ticks has no room, or if version 1 is asked for
    // and the tables need version 2.
    ensures full { IfErr result (λ r. r.error ≡ Error.Full
        → IsFull version (R.remaining input.old)) }
    ensures end { OnOk result (IsAtEnd (R.remaining input.new)) }
    ensures wrote { WrotePlay (output.new ≡ output.old) (image.new ≡ image.old)
        (capture.new ≡ capture.old) (output.new.text.items ≡ []) (capture.new.text.items ≡ [])
        output.old.faults output.new.faults image.old.faults image.new.faults
        capture.old.faults capture.new.faults result }
    // The image isn't written before all lines of the play are.
    ensures order { (image.new ≡ image.old) ⊎ ((p : PlayedValue)
        × IsPlayOf version (R.remaining input.old) p
        × Appends (W.contents output.old.writer) (W.contents output.new.writer)
        (output.old.text.items ++ play_lines p.world p.verdict)) }
    ensures empty { OnOk result ((output.new.text.items ≡ []) × (image.new.text.items ≡ [])
        × (capture.new.text.items ≡ [])) }
{
    let Told {
        played,
        lines,
        bytes,
    } = match play_file(alloc, input, progress, version) {
        Ok(told) => told,
        Err(refused) => return Err(refused),
    };
    if let Err(error) = playing::capture_play(alloc, &played, capture) {
        return Err(Refused::of(error));
    }
    match hand_over(lines.as_slice(), bytes.as_slice(), output, image) {
        Ok(()) => Ok(played),
        Err(error) => Err(Refused::of(error)),
    }
}
