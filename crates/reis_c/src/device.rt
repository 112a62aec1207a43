//! The description of a device, as C gives it.

ghost use Rattle.std.specs.Prelude.{◌≡◌, [], ◌∷◌, ◌++◌, map, true, false, MatchOption, OnOk, IfOk};
ghost use Rattle.std.specs.List.{flat_map, list_any};
ghost use Rattle.reis_c.specs.Describing.{dimensions_of, is_bad, is_untyped, is_wrong, item_of, items_of, keymap_of, mapping_id, region_of, type_of};

use ei_request::DeviceSetup;
use ei_spec::Handle;
use ei_types::{DeviceType, KeymapType};
use ei_wire::{NoMemory, RawFloat};
use std::alloc::Global;

/// What a device is, but for its texts and its regions. The header says what each number means.
#[repr(C)]
#[derive(Clone, Copy)]
pub struct ReisDevice {
    /// The capabilities that it gets.
    pub capabilities: u64,
    /// Its type.
    pub device_type: u32,
    /// Its width in millimetres, or 0.
    pub width: u32,
    /// Its height in millimetres, or 0.
    pub height: u32,
    /// The type of its keymap, or 0.
    pub keymap_type: u32,
    /// The handle of its keymap.
    pub keymap: u32,
    /// How many bytes the keymap has.
    pub keymap_size: u32,
}

/// A region of a device.
#[repr(C)]
#[derive(Clone, Copy)]
pub struct ReisRegion {
    /// Its corner.
    pub x: u32,
    pub y: u32,
    /// Its size.
    pub width: u32,
    pub height: u32,
    /// The bits of the scale, which is a number of four bytes.
    pub scale: u32,
    /// Where its mapping id begins, among the bytes of all.
    pub mapping_id: u32,
    /// How many bytes that has, or 0.
    pub mapping_id_length: u32,
}

/// The type of a device by its number: 1 or 2.
pub(crate) fn type_of(device: &ReisDevice) -> DeviceType
    ensures { result ≡ type_of device.now }
{
    if device.device_type == 1 {
        DeviceType::Virtual
    } else {
        DeviceType::Physical
    }
}

/// The mapping id of a region; `None` where it isn't there whole, or is no text.
#[tactic(auto, using(crate::proofs::Given::is_text, crate::proofs::Given::is_no_text))]
fn mapping_id<'a>(ids: &'a [u8], region: &ReisRegion) -> Option<&'a str>
    ensures { MatchOption result (is_bad ids.now region.now ≡ true) (λ id. (is_bad ids.now region.now ≡ false) ×
        (id.now ≡ mapping_id ids.now region.now)) }
{
    let start = region.mapping_id as usize;
    let length = region.mapping_id_length as usize;
    if ids.len() < start + length {
        return None;
    }
    match str::from_utf8(&ids[start..start + length]) {
        Ok(id) => Some(id),
        Err(_) => None,
    }
}

fn is_bad(ids: &[u8], region: &ReisRegion) -> bool
    ensures { result ≡ is_bad ids.now region.now }
{
    mapping_id(ids, region).is_none()
}

/// Whether the mapping id of a region isn't there, or is no text.
fn has_bad(ids: &[u8], regions: &[ReisRegion]) -> bool
    ensures { result ≡ list_any (is_bad ids.now) regions.now }
{
    regions.iter().any(|region| is_bad(ids, region))
}

fn is_untyped(device: &ReisDevice) -> bool
    ensures { result ≡ is_untyped device.now }
{
    device.device_type == 0 || device.device_type > 2 || device.keymap_type > 1
}

/// Whether a description says what isn't.
pub(crate) fn is_wrong(device: &ReisDevice, regions: &[ReisRegion], ids: &[u8]) -> bool
    ensures { result ≡ is_wrong device.now regions.now ids.now }
{
    is_untyped(device) || has_bad(ids, regions)
}

/// Adds an item.
fn add<'a>(items: &mut Vec<DeviceSetup<'a>>, item: DeviceSetup<'a>) -> Result<(), NoMemory>
    ensures { OnOk result (items.new.items ≡ items.old.items ++ (item.entry ∷ [])) }
{
    items.push(item)?;
    Ok(())
}

/// Adds the size of a device, where it has one.
fn add_dimensions(items: &mut Vec<DeviceSetup<'_>>, device: &ReisDevice) -> Result<(), NoMemory>
    ensures { OnOk result (map item_of items.new.items ≡ map item_of items.old.items ++ dimensions_of device.now) }
{
    if device.width == 0 && device.height == 0 {
        return Ok(());
    }
    add(
        items,
        DeviceSetup::Dimensions {
            width: device.width,
            height: device.height,
        },
    )
}

/// Adds a region, behind its mapping id, where it has one.
fn add_region<'a>(
    items: &mut Vec<DeviceSetup<'a>>,
    ids: &'a [u8],
    region: &ReisRegion,
) -> Result<(), NoMemory>
    requires { is_bad ids.now region.now ≡ false }
    ensures { OnOk result (map item_of items.new.items ≡ map item_of items.old.items ++ region_of ids.now region.now) }
{
    if let Some(id) = mapping_id(ids, region)
        && !id.is_empty()
    {
        add(items, DeviceSetup::RegionMappingId(id))?;
    }
    add(
        items,
        DeviceSetup::Region {
            offset_x: region.x,
            offset_y: region.y,
            width: region.width,
            hight: region.height,
            scale: RawFloat(region.scale),
        },
    )
}

/// Adds the regions.
fn add_regions<'a>(
    items: &mut Vec<DeviceSetup<'a>>,
    ids: &'a [u8],
    regions: &[ReisRegion],
) -> Result<(), NoMemory>
    requires { list_any (is_bad ids.now) regions.now ≡ false }
    ensures { OnOk result (map item_of items.new.items ≡ map item_of items.old.items ++ flat_map (region_of ids.now)
        regions.now) }
{
    for region in regions {
        add_region(items, ids, region)?;
    }
    Ok(())
}

/// Adds the keymap of a device, where it has one.
fn add_keymap(items: &mut Vec<DeviceSetup<'_>>, device: &ReisDevice) -> Result<(), NoMemory>
    requires { is_untyped device.now ≡ false }
    ensures { OnOk result (map item_of items.new.items ≡ map item_of items.old.items ++ keymap_of device.now) }
{
    if device.keymap_type == 0 {
        return Ok(());
    }
    add(
        items,
        DeviceSetup::Keymap {
            keymap_type: KeymapType::Xkb,
            size: device.keymap_size,
            handle: Handle(device.keymap),
        },
    )
}

/// The items of a description in which nothing is wrong.
pub(crate) fn describe<'a>(
    alloc: Global,
    device: &ReisDevice,
    regions: &[ReisRegion],
    ids: &'a [u8],
) -> Result<Vec<DeviceSetup<'a>>, NoMemory>
    requires { is_wrong device.now regions.now ids.now ≡ false }
    ensures { IfOk result (λ items. map item_of items.items ≡ items_of device.now regions.now ids.now) }
{
    let mut items = Vec::new(alloc);
    add_dimensions(&mut items, device)?;
    add_regions(&mut items, ids, regions)?;
    add_keymap(&mut items, device)?;
    Ok(items)
}
