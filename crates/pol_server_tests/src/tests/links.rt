use pol_disk::{Disk, HollowDisk};
use pol_server::{Ending, Objects, Place, Shared, Stores, serve_connection};
use pol_wire::{CountingDraw, Link, MemoryClock, MemorySink, MemorySource};
use std::alloc::{AllocError, Global};
use std::test::Fail;

/// A request that opens a session.
const OPENS: &str =
    "POST /api/catalog/v1/oauth/tokens HTTP/1.1\r\nhost: l\r\ncontent-length: 65\r\n\r\n\
    grant_type=client_credentials&client_id=root&client_secret=s3cret";

/// A request that opens a session, one that asks for nothing, and one more that opens a session.
const THREE: &str =
    "POST /api/catalog/v1/oauth/tokens HTTP/1.1\r\nhost: l\r\ncontent-length: 65\r\n\r\n\
    grant_type=client_credentials&client_id=root&client_secret=s3cret\
    GET /none HTTP/1.1\r\n\r\n\
    POST /api/catalog/v1/oauth/tokens HTTP/1.1\r\nhost: l\r\ncontent-length: 65\r\n\r\n\
    grant_type=client_credentials&client_id=root&client_secret=s3cret";

/// A request for an object, without a token.
const READS: &str = "GET /objects/b/x HTTP/1.1\r\n\r\n";

/// The bytes of a link; the call of its source, its sink and its draw that is to fail, counted from 1, or 0; how it
/// ends; and the places of its requests.
type Case<'a> = (&'a str, (u64, u64, u64), Ending, &'a [Place]);

/// Links over one catalogue, whose places go on where those of the last one ended. An access that is refused has a
/// place there.
const LINKS: [Case<'static>; 7] = [
    ("", (0, 0, 0), Ending::Ended, &[]),
    ("G", (0, 0, 0), Ending::Cut, &[]),
    (
        THREE,
        (0, 0, 0),
        Ending::Ended,
        &[Place::Catalogue(0), Place::NoEntry, Place::Catalogue(1)],
    ),
    (
        THREE,
        (0, 0, 1),
        Ending::Ended,
        &[Place::NoEntry, Place::NoEntry, Place::Catalogue(2)],
    ),
    (READS, (0, 0, 0), Ending::Ended, &[Place::Catalogue(3)]),
    (OPENS, (2, 0, 0), Ending::ReadFault, &[Place::Catalogue(4)]),
    (
        THREE,
        (0, 2, 0),
        Ending::WriteFault,
        &[Place::Catalogue(5), Place::NoEntry],
    ),
];

type MemoryLink = Link<MemorySource, MemorySink, MemoryClock, CountingDraw>;

/// A link in memory with these bytes in one piece, at moment 1,000 and with words that count from 0.
fn linked(alloc: Global, case: &Case<'_>) -> Result<MemoryLink, AllocError> {
    let (bytes, (take, give, word), _, _) = *case;
    let bytes = bytes.as_bytes().to_vec(alloc)?;
    let takes = vec![in alloc; take]?;
    let gives = vec![in alloc; give]?;
    let words = vec![in alloc; word]?;
    let moments = vec![in alloc; 1_000]?;
    Ok(Link {
        source: MemorySource::new(bytes, Vec::new(alloc), takes),
        sink: MemorySink::new(Vec::new(alloc), usize::MAX, gives),
        clock: MemoryClock::new(moments),
        words: CountingDraw::new(words),
    })
}

/// Whether a link ends so, with these places.
fn is_served<D: Disk, O: Disk>(
    alloc: Global,
    stores: &mut Stores<D, O>,
    case: &Case<'_>,
) -> Option<bool> {
    let mut link = linked(alloc, case).ok()?;
    let served = serve_connection(alloc, stores, &mut link);
    let is_right = served.ending == case.2 && served.places.as_slice() == case.3;
    drop(served);
    drop(link);
    Some(is_right)
}

/// Whether these links are served so, one after the other.
fn are_served<D: Disk, O: Disk>(
    alloc: Global,
    stores: &mut Stores<D, O>,
    cases: &[Case<'_>],
) -> bool {
    for case in cases {
        if is_served(alloc, stores, case) != Some(true) {
            return false;
        }
    }
    true
}

/// Both stores over disks that keep nothing but their lengths, if there is memory for them.
fn hollow_stores(alloc: Global) -> Option<Stores<HollowDisk, HollowDisk>> {
    let catalogue = Shared::fresh(alloc, HollowDisk::new(0), "s3cret").ok()?;
    let Ok(objects) = Objects::fresh(alloc, HollowDisk::new(0)) else {
        drop(catalogue);
        return None;
    };
    Some(Stores { catalogue, objects })
}

#[test]
fn links_share_one_history(rt: HostRuntime) -> Result<(), Fail> {
    let Some(mut stores) = hollow_stores(rt.alloc()) else {
        return Err(Fail::new("there are no stores"));
    };
    let served = are_served(rt.alloc(), &mut stores, &LINKS);
    drop(stores);
    assert!(rt; served);
    Ok(())
}
