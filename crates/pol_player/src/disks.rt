//! The disks of examples: what they hold at the start of a run, and what it left of them.
ghost use Rattle.std.specs.Prelude.{◌≡◌, IfOk, None, Some};
ghost use Rattle.pol_disk.specs.Content.{IsImage};
ghost use Rattle.pol_disk.specs.MemoryDisk.{first_disk};
ghost use Rattle.pol_player.specs.Disks.{BeginsWith, BothBegin, BothFirst};

use pol_disk::{Content, Disk, MemoryDisk};
use pol_examples::{DiskSettings, Image, Settings, Start};
use pol_types::OutOfMemory;
use std::alloc::Global;

/// Both disks.
#[derive(Drop)]
pub struct Disks {
    pub catalogue: MemoryDisk,
    pub objects: MemoryDisk,
}

/// What both disks hold at the start of a run.
#[derive(Drop)]
pub struct Files {
    pub catalogue: Vec<u8>,
    pub objects: Vec<u8>,
}

impl Files {
    /// What both disks hold at the start of an example, where the run above left them so.
    pub fn of(
        alloc: Global,
        settings: &Settings,
        above: &Option<Disks>,
    ) -> Result<Self, OutOfMemory>
        ensures { IfOk result (BothBegin settings.now above.now) }
    {
        let Some(disks) = above else {
            return Files::of_none(alloc, settings);
        };
        let catalogue = bytes_behind(alloc, &settings.catalogue.start, &disks.catalogue)?;
        let objects = bytes_behind(alloc, &settings.objects.start, &disks.objects)?;
        Ok(Files { catalogue, objects })
    }

    /// The same where no run stands above.
    fn of_none(alloc: Global, settings: &Settings) -> Result<Self, OutOfMemory>
        ensures { IfOk result (BothBegin settings.now None) }
    {
        let catalogue = bytes_of(alloc, &settings.catalogue.start)?;
        let objects = bytes_of(alloc, &settings.objects.start)?;
        Ok(Files { catalogue, objects })
    }

    /// The disks of a run that begins so.
    pub fn disks(&self, alloc: Global, settings: &Settings) -> Result<Disks, OutOfMemory>
        ensures { IfOk result (BothFirst settings.now self.now) }
    {
        let catalogue = first_of(alloc, self.catalogue.as_slice(), &settings.catalogue)?;
        let objects = first_of(alloc, self.objects.as_slice(), &settings.objects)?;
        Ok(Disks { catalogue, objects })
    }
}

/// A disk of these bytes, whose calls fail as an example says.
fn first_of(alloc: Global, bytes: &[u8], settings: &DiskSettings) -> Result<MemoryDisk, OutOfMemory>
    ensures { IfOk result (λ disk. disk ≡ first_disk bytes.now settings.now.failing.items) }
{
    let bytes = Vec::from_slice(alloc, bytes)?;
    let failing = Vec::from_slice(alloc, settings.failing.as_slice())?;
    MemoryDisk::new(alloc, bytes, failing)
}

/// The bytes that a disk begins with where no run stands above.
fn bytes_of(alloc: Global, start: &Start) -> Result<Vec<u8>, OutOfMemory>
    ensures { IfOk result (λ bytes. BeginsWith start.now None bytes.items) }
{
    match start {
        Start::Said(bytes) => Ok(Vec::from_slice(alloc, bytes.as_slice())?),
        Start::Kept | Start::Crashed(_) => Ok(Vec::new(alloc)),
    }
}

/// The bytes that a disk begins with, where the run above left this one.
fn bytes_behind(alloc: Global, start: &Start, above: &MemoryDisk) -> Result<Vec<u8>, OutOfMemory>
    ensures { IfOk result (λ bytes. BeginsWith start.now (Some above.now) bytes.items) }
{
    match start {
        Start::Said(bytes) => Ok(Vec::from_slice(alloc, bytes.as_slice())?),
        Start::Kept => Ok(Vec::from_slice(alloc, held(above).seen())?),
        Start::Crashed(image) => image_left(alloc, above, *image),
    }
}

/// What a disk holds, with what a crash may leave of it.
pub fn held(disk: &MemoryDisk) -> &Content
    ensures { result.now ≡ disk.now.content }
{
    disk.content_at(disk.moment())
}

/// The image that a crash leaves of a disk.
fn image_left(alloc: Global, disk: &MemoryDisk, image: Image) -> Result<Vec<u8>, OutOfMemory>
    ensures { IfOk result (λ bytes. IsImage disk.now.content bytes.items) }
{
    let content = held(disk);
    match image {
        Image::Synced => synced_image(alloc, disk),
        Image::Written => read_of(alloc, content),
        Image::Longest(byte) => filled(alloc, content, content.longest_image(), byte),
        Image::Shortest(byte) => filled(alloc, content, content.shortest_image(), byte),
    }
}

/// What a read gives, which is an image too.
fn read_of(alloc: Global, content: &Content) -> Result<Vec<u8>, OutOfMemory>
    ensures { IfOk result (λ bytes. IsImage content.now bytes.items) }
{
    Ok(Vec::from_slice(alloc, content.seen())?)
}

/// The image that has these bytes wherever any byte may stand. Where none has their length it is what a read gives.
fn image_of(alloc: Global, content: &Content, filling: &[u8]) -> Result<Vec<u8>, OutOfMemory>
    ensures { IfOk result (λ bytes. IsImage content.now bytes.items) }
{
    if filling.len() < content.shortest_image() {
        return read_of(alloc, content);
    }
    if filling.len() > content.longest_image() {
        return read_of(alloc, content);
    }
    content.image(alloc, filling)
}

/// The image of this length, with a byte wherever any byte may stand.
fn filled(alloc: Global, content: &Content, count: usize, byte: u8) -> Result<Vec<u8>, OutOfMemory>
    ensures { IfOk result (λ bytes. IsImage content.now bytes.items) }
{
    let filling = vec![in alloc; byte; count]?;
    image_of(alloc, content, filling.as_slice())
}

/// The image that has nothing of what was written since the last sync: what the disk held then, which a crash may leave
/// still.
fn synced_image(alloc: Global, disk: &MemoryDisk) -> Result<Vec<u8>, OutOfMemory>
    ensures { IfOk result (λ bytes. IsImage disk.now.content bytes.items) }
{
    let filling = last_synced(alloc, disk)?;
    image_of(alloc, held(disk), filling.as_slice())
}

/// What a disk held at its last sync, or at first where none succeeded.
fn last_synced(alloc: Global, disk: &MemoryDisk) -> Result<Vec<u8>, OutOfMemory> {
    let moment = disk.moment();
    for back in 0..moment {
        if let Some(bytes) = sure_bytes(alloc, disk.content_at(moment - back))? {
            return Ok(bytes);
        }
    }
    Ok(Vec::from_slice(alloc, disk.content_at(0).seen())?)
}

/// The bytes of a disk, where each crash leaves just these.
fn sure_bytes(alloc: Global, content: &Content) -> Result<Option<Vec<u8>>, OutOfMemory> {
    let count = content.longest_image();
    if content.shortest_image() != count {
        return Ok(None);
    }
    let bytes = filled(alloc, content, count, 0)?;
    let others = filled(alloc, content, count, 1)?;
    if bytes.as_slice() != others.as_slice() {
        return Ok(None);
    }
    Ok(Some(bytes))
}
