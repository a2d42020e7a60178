//! A link while it is served.
ghost use Rattle.std.specs.Prelude.{◌≡◌, ◌≢◌, ◌<◌, ◌≤◌, ◌+◌, ◌^◌, ◌++◌, ◌⊎◌, ◌||◌, [], false, true, length, take, Ok, None, Some, IfSome, IsTrue, OnErr, OnOk, IsSomeAnd, vec_len, vec_capacity, if◌then◌else◌};
ghost use Rattle.std.specs.Option.{option_map};
ghost use Rattle.pol_http.specs.Head.{asks};
ghost use Rattle.pol_http.specs.Message.{IsRefusedAs, Message};
ghost use Rattle.pol_http.specs.Next.{Awaits, IsMessageAt, IsUnfinished, LiesWithin};
ghost use Rattle.pol_server.specs.Both.{SeenBoth};
ghost use Rattle.pol_server.specs.Stores.{KeepsCatalogue, KeepsObjects, seen_of};
ghost use Rattle.pol_server.specs.Link.{IsUnfinishedRest};
ghost use Rattle.pol_server.specs.Calls.{GivesAll};
ghost use Rattle.pol_server.specs.Handling.{text_by};
ghost use Rattle.pol_server.specs.Serving.{Finishes, IsEndingOf, IsOwnEnding, IsStopped, IsToldAsked, IsUnread, KeepsStop, Moves, ReadsOn, Says, standing, told_text, work_of};

use crate::ends::{Linked, give_all};
use crate::message::handle;
use crate::text::head_refused_text;
use crate::{Ending, Place, Stores};
use bytes::BytesMut;
use httparse::spans::Span;
use pol_disk::Disk;
use pol_http::{
    CONTINUE, Head, HeadRefused, INSUFFICIENT_STORAGE, Next, missing_bytes, next_message,
};
use pol_routes::Routes;
use pol_types::OutOfMemory;
use pol_wire::Failed;
use std::alloc::Global;

/// The most bytes that are taken from a link.
const TAKEN_BOUND: u64 = 1 << 40;

/// The most bytes that one call takes from the source.
const PIECE: usize = 16_384;

/// Why no more bytes are taken from the source.
#[derive(Clone, Copy, PartialEq, Eq)]
pub(crate) enum Stop {
    AtEnd,
    Failed,
    Spent,
    NoMemory,
}

/// The bytes that were taken and belong to no message that was handled, the places of those that were, how many
/// more bytes may be taken, whether the message at the front was told to go on, and why the source gives no more.
#[derive(Drop)]
pub(crate) struct Connection {
    pub buffer: BytesMut,
    pub places: Vec<Place>,
    pub budget: u64,
    pub told: bool,
    pub stop: Option<Stop>,
    /// Where the next bytes are taken to.
    piece: Vec<u8>,
    /// How many bytes the message at the front is known to lack, so that no head is read again before they are there.
    wanted: usize,
}

impl Connection {
    /// Before the first byte, and without memory.
    pub fn new(alloc: Global) -> Self
        ensures buffer { result.buffer.items ≡ [] }
        ensures places { result.places.items ≡ [] }
        ensures budget { result.budget ≡ 2 ^ 40 }
        ensures told { result.told ≡ false }
        ensures stop { result.stop ≡ None }
    {
        Connection {
            buffer: BytesMut::new(alloc),
            places: Vec::new(alloc),
            budget: TAKEN_BOUND,
            told: false,
            stop: None,
            piece: Vec::new(alloc),
            wanted: 0,
        }
    }

    /// The places of the requests that were handled.
    pub fn into_places(self) -> Vec<Place>
        ensures { result.items ≡ self.places.items }
    {
        self.places
    }

    /// Takes the next bytes of the source, or notes why there are none.
    fn read<L: Linked>(&mut self, link: &mut L)
        requires { self.old.stop ≡ None }
        ensures { ReadsOn (L.ends link.old) (L.ends link.new) self.old self.new }
    {
        if self.budget == 0 {
            self.stop = Some(Stop::Spent);
            return;
        }
        let most = self.budget.min(PIECE as u64) as usize;
        let Ok(()) = self.make_room(most) else {
            self.stop = Some(Stop::NoMemory);
            return;
        };
        match link.take(self.piece.as_mut_slice()) {
            Ok(0) => self.stop = Some(Stop::AtEnd),
            Ok(count) => self.keep(count),
            Err(Failed) => self.stop = Some(Stop::Failed),
        }
    }

    /// Makes room for a piece of so many bytes, and for its bytes in the buffer.
    fn make_room(&mut self, most: usize) -> Result<(), OutOfMemory>
        ensures same { self.new ≡ record self.old { buffer = self.new.buffer; piece = self.new.piece } }
        ensures buffer { self.new.buffer.items ≡ self.old.buffer.items }
        ensures piece { OnOk result (vec_len self.new.piece ≡ most) }
        ensures spare { OnOk result (most ≤ self.new.buffer.spare) }
    {
        self.piece.resize(most, 0)?;
        self.buffer.reserve(most)?;
        Ok(())
    }

    /// Keeps the bytes that were taken to the front of the piece.
    fn keep(&mut self, count: usize)
        requires piece { count ≤ vec_len self.old.piece }
        requires spare { count ≤ self.old.buffer.spare }
        requires budget { count ≤ self.old.budget }
        ensures buffer { self.new.buffer.items ≡ self.old.buffer.items ++ take count self.old.piece.items }
        ensures budget { self.new.budget + count ≡ self.old.budget }
        ensures same { self.new
            ≡ record self.old { buffer = self.new.buffer; budget = self.new.budget; wanted = self.new.wanted } }
    {
        let Ok(()) = self.buffer.extend_from_slice(&self.piece[..count]) else {
            unreachable!()
        };
        self.budget -= count as u64;
        self.wanted = self.wanted.saturating_sub(count);
    }

    /// Tells the message at the front to go on, if it asks and wasn't told.
    fn tell<L: Linked>(&mut self, link: &mut L, asks: bool) -> Result<(), Failed>
        ensures told { OnOk result (self.new ≡ record self.old { told = self.old.told || asks }) }
        ensures kept { OnErr result (self.new ≡ self.old) }
        ensures given { OnOk result (GivesAll (L.ends link.old) (L.ends link.new)
            (if self.old.told then [] else told_text asks) result) }
        ensures failed { OnErr result ((self.old.told ≡ false) × (asks ≡ true)
            × GivesAll (L.ends link.old) (L.ends link.new) CONTINUE.now result) }
    {
        if self.told {
            return Ok(());
        }
        if !asks {
            return Ok(());
        }
        give_all(link, CONTINUE)?;
        self.told = true;
        Ok(())
    }
}

impl Connection {
    /// Refuses the head at the front, after which the link ends.
    fn refuse<L: Linked>(&self, alloc: Global, link: &mut L, why: HeadRefused) -> Option<Ending>
        requires refused { IsRefusedAs self.now.buffer.items why }
        requires told { IsToldAsked self.now.told self.now.buffer.items }
        ensures moves { (seen : SeenBoth) → Moves result (standing (L.ends link.old) seen self.now)
            (standing (L.ends link.new) seen self.now) }
        ensures unread { IsUnread (L.ends link.old) (L.ends link.new) self.now self.now }
        ensures ended { IsSomeAnd result IsOwnEnding }
    {
        match head_refused_text(alloc, why) {
            Ok(text) => say(link, text.as_slice(), Some(Ending::Closed)),
            Err(OutOfMemory) => say(link, INSUFFICIENT_STORAGE, Some(Ending::NoMemory)),
        }
    }

    /// Takes more bytes for the message at the front, or ends the link where there are none: so where its source is
    /// at its end.
    fn wait<L: Linked>(&mut self, link: &mut L, at_end: Ending) -> Option<Ending>
        requires unfinished { IsUnfinishedRest self.old.buffer.items (told_text self.old.told) }
        requires told { IsToldAsked self.old.told self.old.buffer.items }
        requires at_end { ((at_end ≡ Ending.Ended) × (self.old.buffer.items ≡ []) × (self.old.told ≡ false))
            ⊎ ((at_end ≡ Ending.Cut) × (self.old.buffer.items ≢ [])) }
        ensures moves { (seen : SeenBoth) → Moves result (standing (L.ends link.old) seen self.old)
            (standing (L.ends link.new) seen self.new) }
        ensures told { IsToldAsked self.new.told self.new.buffer.items }
        ensures stops { KeepsStop (L.ends link.old) (L.ends link.new) self.old self.new }
        ensures ending { IfSome result (IsEndingOf self.new.stop) }
        ensures work { result ≡ None → work_of self.new < work_of self.old }
    {
        let Some(stop) = self.stop else {
            self.wanted = missing_bytes(self.buffer.as_slice()).unwrap_or(1);
            self.read(link);
            return None;
        };
        match stop {
            Stop::AtEnd => Some(at_end),
            Stop::Failed => Some(Ending::ReadFault),
            Stop::Spent => Some(Ending::Spent),
            Stop::NoMemory => say(link, INSUFFICIENT_STORAGE, Some(Ending::NoMemory)),
        }
    }

    /// Handles the message at the front, tells its place, and gives its answer.
    fn take_turn<D: Disk, O: Disk, L: Linked>(
        &mut self,
        alloc: Global,
        routes: &Routes,
        stores: &mut Stores<D, O>,
        link: &mut L,
        head: &Head,
        body: Span,
    ) -> Option<Ending>
        requires ranges { LiesWithin self.old.buffer.items head.now body body.end }
        requires parts { (message : Message) × IsMessageAt self.old.buffer.items head.now body body.end message
            × (self.old.told ≡ asks message.head) }
        requires room { vec_len self.old.places < vec_capacity self.old.places }
        ensures moves { Moves result (standing (L.ends link.old) (seen_of stores.old) self.old)
            (standing (L.ends link.new) (seen_of stores.new) self.new) }
        ensures catalogue { KeepsCatalogue D.seen D.may_leave D.clock D.left_since D.fault_count
            stores.old.catalogue stores.new.catalogue }
        ensures objects { KeepsObjects O.seen O.may_leave O.clock O.left_since O.fault_count
            stores.old.objects stores.new.objects }
        ensures told { self.new.told ≡ false }
        ensures unread { IsUnread (L.ends link.old) (L.ends link.new) self.old self.new }
        ensures ending { IfSome result IsOwnEnding }
        ensures work { length self.new.buffer.items < length self.old.buffer.items }
    {
        let handled = handle(
            alloc,
            routes,
            stores,
            link,
            self.buffer.as_slice(),
            head,
            body,
        );
        let Ok(()) = self.places.push(handled.place) else {
            unreachable!()
        };
        self.buffer.advance(body.end);
        self.told = false;
        say(link, text_or_none(&handled.text), ending_after(head.closes))
    }

    /// Answers the message at the front, which was told to go on where it asks.
    fn answer_told<D: Disk, O: Disk, L: Linked>(
        &mut self,
        alloc: Global,
        routes: &Routes,
        stores: &mut Stores<D, O>,
        link: &mut L,
        head: &Head,
        body: Span,
    ) -> Option<Ending>
        requires ranges { LiesWithin self.old.buffer.items head.now body body.end }
        requires parts { (message : Message) × IsMessageAt self.old.buffer.items head.now body body.end message
            × (self.old.told ≡ asks message.head) }
        ensures moves { Moves result (standing (L.ends link.old) (seen_of stores.old) self.old)
            (standing (L.ends link.new) (seen_of stores.new) self.new) }
        ensures catalogue { KeepsCatalogue D.seen D.may_leave D.clock D.left_since D.fault_count
            stores.old.catalogue stores.new.catalogue }
        ensures objects { KeepsObjects O.seen O.may_leave O.clock O.left_since O.fault_count
            stores.old.objects stores.new.objects }
        ensures told { result ≡ None → self.new.told ≡ false }
        ensures unread { IsUnread (L.ends link.old) (L.ends link.new) self.old self.new }
        ensures ending { IfSome result IsOwnEnding }
        ensures work { result ≡ None → length self.new.buffer.items < length self.old.buffer.items }
    {
        let Ok(()) = self.places.reserve(1) else {
            return say(link, INSUFFICIENT_STORAGE, Some(Ending::NoMemory));
        };
        self.take_turn(alloc, routes, stores, link, head, body)
    }

    /// Answers the message at the front.
    fn answer<D: Disk, O: Disk, L: Linked>(
        &mut self,
        alloc: Global,
        routes: &Routes,
        stores: &mut Stores<D, O>,
        link: &mut L,
        head: &Head,
        body: Span,
    ) -> Option<Ending>
        requires ranges { LiesWithin self.old.buffer.items head.now body body.end }
        requires parts { (message : Message) × IsMessageAt self.old.buffer.items head.now body body.end message }
        requires told { IsToldAsked self.old.told self.old.buffer.items }
        ensures moves { Moves result (standing (L.ends link.old) (seen_of stores.old) self.old)
            (standing (L.ends link.new) (seen_of stores.new) self.new) }
        ensures catalogue { KeepsCatalogue D.seen D.may_leave D.clock D.left_since D.fault_count
            stores.old.catalogue stores.new.catalogue }
        ensures objects { KeepsObjects O.seen O.may_leave O.clock O.left_since O.fault_count
            stores.old.objects stores.new.objects }
        ensures told { result ≡ None → self.new.told ≡ false }
        ensures unread { IsUnread (L.ends link.old) (L.ends link.new) self.old self.new }
        ensures ending { IfSome result IsOwnEnding }
        ensures work { result ≡ None → length self.new.buffer.items < length self.old.buffer.items }
    {
        let Ok(()) = self.tell(link, head.asks) else {
            return Some(Ending::WriteFault);
        };
        self.answer_told(alloc, routes, stores, link, head, body)
    }

    /// Tells the message at the front to go on, and waits for its body.
    fn go_on<L: Linked>(&mut self, link: &mut L) -> Option<Ending>
        requires awaits { Awaits self.old.buffer.items }
        ensures moves { (seen : SeenBoth) → Moves result (standing (L.ends link.old) seen self.old)
            (standing (L.ends link.new) seen self.new) }
        ensures told { result ≡ None → IsToldAsked self.new.told self.new.buffer.items }
        ensures stops { KeepsStop (L.ends link.old) (L.ends link.new) self.old self.new }
        ensures ending { IfSome result (IsEndingOf self.new.stop) }
        ensures work { result ≡ None → work_of self.new < work_of self.old }
    {
        let Ok(()) = self.tell(link, true) else {
            return Some(Ending::WriteFault);
        };
        self.wait(link, Ending::Cut)
    }

    /// Waits for a message, or for the rest of its head or body.
    fn await_more<L: Linked>(&mut self, link: &mut L) -> Option<Ending>
        requires unfinished { IsUnfinished self.old.buffer.items }
        requires told { IsToldAsked self.old.told self.old.buffer.items }
        ensures moves { (seen : SeenBoth) → Moves result (standing (L.ends link.old) seen self.old)
            (standing (L.ends link.new) seen self.new) }
        ensures told { result ≡ None → IsToldAsked self.new.told self.new.buffer.items }
        ensures stops { KeepsStop (L.ends link.old) (L.ends link.new) self.old self.new }
        ensures ending { IfSome result (IsEndingOf self.new.stop) }
        ensures work { result ≡ None → work_of self.new < work_of self.old }
    {
        let at_end = if self.buffer.is_empty() {
            Ending::Ended
        } else {
            Ending::Cut
        };
        self.wait(link, at_end)
    }

    /// Whether the message at the front is known to lack bytes that the source may still give.
    fn is_lacking(&self) -> bool
        ensures { IsTrue result → self.now.stop ≡ None }
    {
        if self.wanted == 0 {
            return false;
        }
        self.stop.is_none()
    }

    /// Goes on by one message or one call of the source, or ends the link.
    fn advance<D: Disk, O: Disk, L: Linked>(
        &mut self,
        alloc: Global,
        routes: &Routes,
        stores: &mut Stores<D, O>,
        link: &mut L,
    ) -> Option<Ending>
        requires told { IsToldAsked self.old.told self.old.buffer.items }
        ensures moves { Moves result (standing (L.ends link.old) (seen_of stores.old) self.old)
            (standing (L.ends link.new) (seen_of stores.new) self.new) }
        ensures catalogue { KeepsCatalogue D.seen D.may_leave D.clock D.left_since D.fault_count
            stores.old.catalogue stores.new.catalogue }
        ensures objects { KeepsObjects O.seen O.may_leave O.clock O.left_since O.fault_count
            stores.old.objects stores.new.objects }
        ensures told { result ≡ None → IsToldAsked self.new.told self.new.buffer.items }
        ensures stops { KeepsStop (L.ends link.old) (L.ends link.new) self.old self.new }
        ensures ending { IfSome result (IsEndingOf self.new.stop) }
        ensures work { result ≡ None → work_of self.new < work_of self.old }
    {
        if self.is_lacking() {
            self.read(link);
            return None;
        }
        match next_message(self.buffer.as_slice()) {
            Next::Whole { head, body, .. } => {
                self.answer(alloc, routes, stores, link, &head, body)
            }
            Next::Refused(why) => self.refuse(alloc, link, why),
            Next::Continue { .. } => self.go_on(link),
            Next::Partial => self.await_more(link),
        }
    }

    /// Serves the link until it ends. Where there is no memory for the routes, it ends at once.
    pub fn serve<D: Disk, O: Disk, L: Linked>(
        &mut self,
        alloc: Global,
        stores: &mut Stores<D, O>,
        link: &mut L,
    ) -> Ending
        requires empty { self.old.buffer.items ≡ [] }
        requires stop { self.old.stop ≡ None }
        requires told { self.old.told ≡ false }
        ensures finishes { Finishes result (standing (L.ends link.old) (seen_of stores.old) self.old)
            (standing (L.ends link.new) (seen_of stores.new) self.new) }
        ensures catalogue { KeepsCatalogue D.seen D.may_leave D.clock D.left_since D.fault_count
            stores.old.catalogue stores.new.catalogue }
        ensures objects { KeepsObjects O.seen O.may_leave O.clock O.left_since O.fault_count
            stores.old.objects stores.new.objects }
        ensures ending { IsEndingOf self.new.stop result }
        ensures stopped { IsStopped self.new.stop (L.ends link.old) (L.ends link.new) self.new.budget }
    {
        match Routes::new(alloc) {
            Ok(routes) => self.serve_by(alloc, &routes, stores, link),
            Err(OutOfMemory) => self.end_without_memory(link),
        }
    }

    /// Serves the link by these routes until it ends.
    fn serve_by<D: Disk, O: Disk, L: Linked>(
        &mut self,
        alloc: Global,
        routes: &Routes,
        stores: &mut Stores<D, O>,
        link: &mut L,
    ) -> Ending
        requires stop { self.old.stop ≡ None }
        requires told { self.old.told ≡ false }
        ensures finishes { Finishes result (standing (L.ends link.old) (seen_of stores.old) self.old)
            (standing (L.ends link.new) (seen_of stores.new) self.new) }
        ensures catalogue { KeepsCatalogue D.seen D.may_leave D.clock D.left_since D.fault_count
            stores.old.catalogue stores.new.catalogue }
        ensures objects { KeepsObjects O.seen O.may_leave O.clock O.left_since O.fault_count
            stores.old.objects stores.new.objects }
        ensures ending { IsEndingOf self.new.stop result }
        ensures stopped { IsStopped self.new.stop (L.ends link.old) (L.ends link.new) self.new.budget }
    {
        loop {
            if let Some(ending) = self.advance(alloc, routes, stores, link) {
                return ending;
            }
        }
    }

    /// Ends a link that no byte was taken from, since memory is wanting.
    fn end_without_memory<L: Linked>(&self, link: &mut L) -> Ending
        requires empty { self.now.buffer.items ≡ [] }
        requires told { self.now.told ≡ false }
        ensures finishes { (seen : SeenBoth) → Finishes result (standing (L.ends link.old) seen self.now)
            (standing (L.ends link.new) seen self.now) }
        ensures ending { IsOwnEnding result }
    {
        match give_all(link, INSUFFICIENT_STORAGE) {
            Ok(()) => Ending::NoMemory,
            Err(Failed) => Ending::WriteFault,
        }
    }
}

/// The bytes of an answer that was made, or those that need no memory.
fn text_or_none(text: &Option<Vec<u8>>) -> &[u8]
    ensures { result.now ≡ text_by (option_map (λ text. text.items) text.now) }
{
    match text {
        Some(text) => text.as_slice(),
        None => INSUFFICIENT_STORAGE,
    }
}

/// How a link ends after an answer, if it does.
fn ending_after(closes: bool) -> Option<Ending>
    ensures { result ≡ (if closes then Some Ending.Closed else None) }
{
    if closes { Some(Ending::Closed) } else { None }
}

/// Gives a text to the sink: what is done then, or a fault of the sink.
fn say<L: Linked>(link: &mut L, text: &[u8], done: Option<Ending>) -> Option<Ending>
    ensures { Says (L.ends link.old) (L.ends link.new) text.now done result }
{
    match give_all(link, text) {
        Ok(()) => done,
        Err(Failed) => Some(Ending::WriteFault),
    }
}
