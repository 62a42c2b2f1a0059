//! Laws of live routers and of worlds. Each is the contract of a function that does nothing.

ghost use Rattle.std.specs.Prelude.{◌≡◌, ◌<◌, ◌≤◌, ◌+◌, ◌∷◌, ℕ, List, [], Some, length, slice_get};
ghost use Rattle.aarp.specs.Choosing.{Choice};
ghost use Rattle.at_base.specs.Range.{Span};
ghost use Rattle.at_base.specs.Spelling.{bytes_of};
ghost use Rattle.audit.specs.Rules.{Passes};
ghost use Rattle.ddp.specs.Datagram.{datagram};
ghost use Rattle.lasting.specs.Hears.{HearsPlain, IsLikeRouter, Ticks, data_datagram};
ghost use Rattle.lasting.specs.Plain.{IsPlainFrame};
ghost use Rattle.lasting.specs.Resting.{AreOther, AreOtherAfter, AreTicks};
ghost use Rattle.lasting.specs.Resting.{IsNumbered, LosesNothingAfter};
ghost use Rattle.lasting.specs.Resting.{HasSameDistances, IsAtRest, StaysSettled, last_of};
ghost use Rattle.lasting.specs.Begun.{AreNextTicks, HasRun, IsNextTick};
ghost use Rattle.lasting.specs.Settled.{AreCleanTicks, AreEmptyTicks, IsSettledIn};
ghost use Rattle.lasting.specs.Settled.{IsSettledWorld, LosesNothingWhereRowsAge};
ghost use Rattle.lasting.specs.Standing.{AreSettled, AskNoMore, HaveAddresses};
ghost use Rattle.live_router.specs.Living.{LiveHears, Living};
ghost use Rattle.live_router.specs.Ticking.{LiveTicks};
ghost use Rattle.rtmp.specs.Data.{RoutingData};
ghost use Rattle.rtmp.specs.Sending.{packet_numbered};
ghost use Rattle.rtmp.specs.declared.request.Horizon.TheVariants.{Split};
ghost use Rattle.rtmp.specs.declared.row.Row.{Row};
ghost use Rattle.settled.specs.Exchange.{AreMovedRows, AreNeighbours};
ghost use Rattle.settled.specs.Settling.{IsSettled};
ghost use Rattle.station.specs.Hearing.{Hearing};
ghost use Rattle.station.specs.declared.heard.Kind.TheVariants.{Ddp};
ghost use Rattle.station.specs.declared.heard.Link.TheVariants.{All};
ghost use Rattle.station.specs.declared.output.Output.{Output};
ghost use Rattle.table_image.specs.Bounds.{IsBounded};
ghost use Rattle.table_image.specs.Internet.{Internet};
ghost use Rattle.table_image.specs.declared.version.Version.{Version};
ghost use Rattle.table_image.specs.declared.version.Version.TheVariants.{V1};
ghost use Rattle.world.specs.Frozen.{frozen_as};
ghost use Rattle.world.specs.Ticking.{IsTick};
ghost use Rattle.world.specs.Worlds.{Worldly};

/// A router whose ports have settled hears a frame that has neither routing data nor a datagram of
/// ZIP: its rows, its zone lists, its ports and its phase stay, and it puts out no such datagram.
pub fn plain_frames_leave_tables()
    ensures { (l new : Living) (x : Hearing) (added : List Output) → AreSettled l.router.ports
        → IsPlainFrame x.kind x.bytes → LiveHears l x added new → HearsPlain l added new }
{}

/// In an internet that passes the audit and is settled, a router whose rows may have moved hears
/// routing data of a neighbour, which sent them of rows that may have moved: its rows may have
/// moved, and no more; its zone lists, its ports and its phase stay, and it puts out nothing.
pub fn routing_data_moves_rows()
    ensures { (i : Internet) (r n s q m : ℕ) (range : Span) (w : AreNeighbours i r n s q range)
        (l new : Living) (c : Choice) (rows : List Row) (packet : RoutingData) (added : List Output)
        → Passes i → IsSettled i → IsBounded i → AreMovedRows i r w.router l.router.routes
        → AreMovedRows i s w.their rows → slice_get l.router.ports n ≡ Some c → c.range ≡ range
        → packet_numbered Split q range w.their_port.address m rows ≡ Some packet
        → LiveHears l (record {
          port = n;
          link = All;
          kind = Ddp;
          bytes = bytes_of datagram (data_datagram w.their_port.address packet);
        }) added new
        → (added ≡ []) × IsLikeRouter l new × (new.phase ≡ l.phase)
        × AreMovedRows i r w.router new.router.routes }
{}

/// In a tick a router whose ports have settled keeps its ports, ages its rows and its zone lists in
/// phase 0 alone, and sends what routing data and queries it sends of its rows after that.
pub fn a_tick_ages_and_tells()
    ensures { (l new : Living) (added : List Output) → AreSettled l.router.ports
        → LiveTicks l added new → Ticks l added new }
{}

/// A world at rest whose image passes the audit and is settled, and in which all rows that aren't
/// direct are Good, passes a tick in which no action sends a datagram of type 1 or 6: its image
/// passes and is settled, and each row has its range and its distance as before.
pub fn a_tick_stays_settled()
    ensures { (old new : Worldly) (phase : ℕ) → IsAtRest phase old → AreOther old.plan new.now → IsTick old new
        → new.plan ≡ old.plan → StaysSettled old new }
{}

/// A world at rest passes ticks, one after the other, in none of which rows age, each of which
/// leaves nothing under way, and no later action of the plan sends a datagram of type 1 or 6: after
/// them it is at rest again, and each row has its range and its distance as before. Rows age in
/// phase 0 of 100.
pub fn ticks_between_ageings_stay_settled()
    ensures { (w : Worldly) (phase : ℕ) (vs : List Worldly) → IsAtRest phase w
        → AreOtherAfter w.plan w.now → AreTicks w vs → phase + length vs < 100
        → IsAtRest (phase + length vs) (last_of w vs)
        × HasSameDistances (frozen_as V1 w) (frozen_as V1 (last_of w vs)) }
{}

/// A world at rest passes ticks, one after the other, each of which leaves nothing under way, while
/// no cable loses frames and no later action of the plan sends a datagram of type 1 or 6: after them
/// it is at rest again, so its image passes the audit and is settled, and each row has its range and
/// its distance as before.
pub fn ticks_stay_settled()
    ensures { (w : Worldly) (phase : ℕ) (vs : List Worldly) → IsAtRest phase w
        → AreOtherAfter w.plan w.now → LosesNothingAfter w.plan w.now → AreTicks w vs
        → IsNumbered w → (q : ℕ) × IsAtRest q (last_of w vs)
        × HasSameDistances (frozen_as V1 w) (frozen_as V1 (last_of w vs)) }
{}

/// A world that has come from its beginning by ticks, and has settled, passes one more tick, in which
/// no action sends a datagram of type 1 or 6: whatever the tick loses or leaves under way, its image
/// passes and is settled, and each row has its range and its distance as before.
pub fn a_tick_of_a_settled_world()
    ensures { (old new : Worldly) → HasRun old → IsSettledWorld old → AreOther old.plan new.now
        → IsNextTick old new → StaysSettled old new }
{}

/// A world has come from its beginning by ticks, and has settled: no frame is under way; no datagram
/// of type 1 or 6 is held, and the next tick poisons no row; its stations have settled; and its image
/// passes the audit and is settled. It passes further ticks, one after the other, each of which leaves
/// no frame under way and no row for the next one to poison, while no cable loses frames where rows
/// age, in each hundredth tick, and no later action of the plan sends a datagram of type 1 or 6. After
/// them it has settled as before, and each row has its range and its distance.
pub fn settled_worlds_stay_settled()
    ensures { (w : Worldly) (vs : List Worldly) → HasRun w → IsSettledWorld w
        → AreOtherAfter w.plan w.now → LosesNothingWhereRowsAge w.plan w.now → AreCleanTicks w vs
        → IsSettledWorld (last_of w vs)
        × HasSameDistances (frozen_as V1 w) (frozen_as V1 (last_of w vs)) }
{}

/// A world has come from its beginning by ticks, and has settled, by its image of either version: by
/// that of version 2 what its stations have learnt of hardware addresses is true. It passes further
/// ticks, one after the other, each of which leaves no frame under way, while no cable loses frames
/// and no later action of the plan sends a datagram of type 1 or 6. After them it has settled as
/// before, by that image, and each row has its range and its distance.
pub fn worlds_without_loss_stay_settled()
    ensures { (version : Version) (w : Worldly) (vs : List Worldly) → HasRun w
        → IsSettledIn version w → AreOtherAfter w.plan w.now → LosesNothingAfter w.plan w.now
        → AreEmptyTicks w vs → IsSettledIn version (last_of w vs)
        × HasSameDistances (frozen_as V1 w) (frozen_as V1 (last_of w vs)) }
{}

/// A world has come from its beginning by ticks, and all its nodes have settled on their addresses.
/// After 11 ticks or more none of them asks any more about its cable.
pub fn settled_nodes_ask_no_more()
    ensures { (w : Worldly) (vs : List Worldly) → HasRun w → HaveAddresses w.stations
        → AreNextTicks w vs → 11 ≤ length vs → AskNoMore (last_of w vs).stations }
{}
