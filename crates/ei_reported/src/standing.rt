//! The laws of what stands: seats, devices and interfaces. Each function does nothing: its clauses are the laws.

ghost use Rattle.std.specs.Prelude.{◌≡◌, ℕ, List, ◌∷◌, ◌==◌, ◌&&◌, ◌||◌, true, false, Some, None};
ghost use Rattle.std.specs.Prelude.{◌↔◌, not, is_some, if◌then◌else◌};
ghost use Rattle.std.specs.Str.{bytes_eq};
ghost use Rattle.ei_spec.specs.History.{HasLasted};
ghost use Rattle.ei_spec.specs.declared.interface.KnownInterface.{KnownInterface};
ghost use Rattle.ei_reported.specs.Said.{Said, SeatComes, SeatDone, SeatGoes, DeviceComes, DeviceHasType, DeviceGets};
ghost use Rattle.ei_reported.specs.Said.{DeviceDone, DeviceGoes, Goes};
ghost use Rattle.ei_reported.specs.Standing.{seat_comes, seat_done, seat_goes, device_typed_by, device_done};
ghost use Rattle.ei_reported.specs.Standing.{device_goes, adds_seat, device_comes, completes, offers, takes, is_held};
ghost use Rattle.ei_reported.specs.Standing.{seat_pending, seat_added, seat_of, device_pending, device_typed};
ghost use Rattle.ei_reported.specs.Standing.{device_added, Offer, offer, interface, holder, is_in_setup};
ghost use Rattle.ei_reported.specs.Changes.{moves_seat, moves_device, moves_interface, unless_of, unless_named};
ghost use Rattle.ei_reported.specs.Changes.{brings, brought, NewIdsDiffer, Keeps, Sets};

/// What stands, told by positions: one started it, and none since ended it.
pub fn by_positions()
    ensures seat_pending { (before : List Said) (seat : ℕ) → (seat_pending before seat ≡ true) ↔
        HasLasted (λ b m. seat_comes seat m) (λ b m. seat_done seat m || seat_goes seat m) before }
    ensures seat_added { (before : List Said) (seat : ℕ) → (seat_added before seat ≡ true) ↔
        HasLasted (adds_seat seat) (λ b m. seat_goes seat m) before }
    ensures device_pending { (before : List Said) (device : ℕ) → (device_pending before device ≡ true) ↔
        HasLasted (device_comes device) (λ b m. device_done device m || device_goes device m) before }
    ensures device_typed { (before : List Said) (device : ℕ) → (device_typed before device ≡ true) ↔
        HasLasted (λ b m. device_typed_by device m) (device_comes device) before }
    ensures device_added { (before : List Said) (device : ℕ) → (device_added before device ≡ true) ↔
        HasLasted (completes true device) (λ b m. device_goes device m) before }
    ensures is_held { (before : List Said) (id : ℕ) (o : Offer) → (is_held id o before ≡ true) ↔
        HasLasted (λ b m. is_some (offers id b m)) (takes id o) before }
{}

/// What starts and ends: the events of these words.
pub fn starts_and_ends()
    ensures adds_seat { (before : List Said) (m : Said) (seat : ℕ) →
        adds_seat seat before m ≡ (seat_done seat m && seat_pending before seat) }
    ensures device_comes { (before : List Said) (seat d device : ℕ) →
        device_comes device before (DeviceComes seat d) ≡ ((d == device) && seat_added before seat) }
    ensures completes { (before : List Said) (m : Said) (device : ℕ) → completes true device before m ≡
        (device_done device m && (device_pending before device && device_typed before device)) }
    ensures offers { (before : List Said) (d i : ℕ) (name : List ℕ) (version id : ℕ) →
        offers id before (DeviceGets d i name version) ≡
        (if (i == id) && device_pending before d then Some (offer d name version) else None) }
    ensures another { (before : List Said) (d i : ℕ) (name : List ℕ) (version id : ℕ) (o : Offer) →
        takes id o before (DeviceGets d i name version) ≡
        (((d == o.device) && bytes_eq name o.name) && device_pending before d) }
    ensures device_goes { (before : List Said) (d serial id : ℕ) (o : Offer) →
        takes id o before (DeviceGoes d serial) ≡ d == o.device }
    ensures dropped { (before : List Said) (d id : ℕ) (o : Offer) → takes id o before (DeviceDone d) ≡
        ((d == o.device) && (device_pending before d && not (device_typed before d))) }
    ensures goes { (before : List Said) (k : KnownInterface) (i serial id : ℕ) (o : Offer) →
        takes id o before (Goes k i serial) ≡ ((i == id) && device_added before o.device) }
{}

/// The seats after an event of each kind.
pub fn seats_after()
    ensures comes { (before : List Said) (seat : ℕ) → Sets seat_pending seat true before (SeatComes seat) }
    ensures done { (before : List Said) (seat : ℕ) → Sets seat_pending seat false before (SeatDone seat) }
    ensures goes { (before : List Said) (seat serial : ℕ) →
        Sets seat_pending seat false before (SeatGoes seat serial) }
    ensures added { (before : List Said) (seat : ℕ) → seat_pending before seat ≡ true →
        Sets seat_added seat true before (SeatDone seat) }
    ensures refused { (before : List Said) (seat : ℕ) → seat_pending before seat ≡ false →
        Keeps seat_added before (SeatDone seat) }
    ensures removed { (before : List Said) (seat serial : ℕ) →
        Sets seat_added seat false before (SeatGoes seat serial) }
    ensures came { (before : List Said) (seat : ℕ) → Keeps seat_added before (SeatComes seat) }
    ensures other_pending { (before : List Said) (m : Said) → moves_seat m ≡ false → Keeps seat_pending before m }
    ensures other_added { (before : List Said) (m : Said) → moves_seat m ≡ false → Keeps seat_added before m }
{}

/// The devices after an event of each kind.
pub fn devices_after()
    ensures comes { (before : List Said) (seat device : ℕ) → seat_added before seat ≡ true →
        Sets device_pending device true before (DeviceComes seat device) }
    ensures comes_typed { (before : List Said) (seat device : ℕ) → seat_added before seat ≡ true →
        Sets device_typed device false before (DeviceComes seat device) }
    ensures refused { (before : List Said) (seat device : ℕ) → seat_added before seat ≡ false →
        Keeps device_pending before (DeviceComes seat device) }
    ensures refused_typed { (before : List Said) (seat device : ℕ) → seat_added before seat ≡ false →
        Keeps device_typed before (DeviceComes seat device) }
    ensures came { (before : List Said) (seat device : ℕ) → Keeps device_added before (DeviceComes seat device) }
    ensures typed { (before : List Said) (device : ℕ) → Sets device_typed device true before (DeviceHasType device) }
    ensures typed_pending { (before : List Said) (device : ℕ) → Keeps device_pending before (DeviceHasType device) }
    ensures typed_added { (before : List Said) (device : ℕ) → Keeps device_added before (DeviceHasType device) }
    ensures done { (before : List Said) (device : ℕ) → Sets device_pending device false before (DeviceDone device) }
    ensures done_typed { (before : List Said) (device : ℕ) → Keeps device_typed before (DeviceDone device) }
    ensures added { (before : List Said) (device : ℕ) →
        device_pending before device ≡ true → device_typed before device ≡ true →
        Sets device_added device true before (DeviceDone device) }
    ensures dropped { (before : List Said) (device : ℕ) →
        device_pending before device && device_typed before device ≡ false →
        Keeps device_added before (DeviceDone device) }
    ensures goes { (before : List Said) (device serial : ℕ) →
        Sets device_pending device false before (DeviceGoes device serial) }
    ensures goes_typed { (before : List Said) (device serial : ℕ) →
        Keeps device_typed before (DeviceGoes device serial) }
    ensures removed { (before : List Said) (device serial : ℕ) →
        Sets device_added device false before (DeviceGoes device serial) }
    ensures other_pending { (before : List Said) (m : Said) → moves_device m ≡ false → Keeps device_pending before m }
    ensures other_typed { (before : List Said) (m : Said) → moves_device m ≡ false → Keeps device_typed before m }
    ensures other_added { (before : List Said) (m : Said) → moves_device m ≡ false → Keeps device_added before m }
{}

/// The seat of each device, after an event of each kind. A device that is there has one.
pub fn seats_of_devices()
    ensures comes { (before : List Said) (seat device : ℕ) → seat_added before seat ≡ true →
        Sets seat_of device (Some seat) before (DeviceComes seat device) }
    ensures refused { (before : List Said) (seat device : ℕ) → seat_added before seat ≡ false →
        Keeps seat_of before (DeviceComes seat device) }
    ensures other { (before : List Said) (m : Said) → moves_device m ≡ false → Keeps seat_of before m }
    ensures typed { (before : List Said) (device : ℕ) → Keeps seat_of before (DeviceHasType device) }
    ensures done { (before : List Said) (device : ℕ) → Keeps seat_of before (DeviceDone device) }
    ensures goes { (before : List Said) (device serial : ℕ) → Keeps seat_of before (DeviceGoes device serial) }
    ensures pending { (before : List Said) (device : ℕ) → device_pending before device ≡ true →
        is_some (seat_of before device) ≡ true }
    ensures added { (before : List Said) (device : ℕ) → device_added before device ≡ true →
        is_some (seat_of before device) ≡ true }
    ensures kept { (before : List Said) (m : Said) (device : ℕ) →
        NewIdsDiffer (m ∷ before) → brought before device ≡ true →
        seat_of (m ∷ before) device ≡ seat_of before device }
{}

/// The interfaces after an event of each kind.
pub fn interfaces_after()
    ensures gets { (before : List Said) (d i : ℕ) (name : List ℕ) (version id : ℕ) →
        device_pending before d ≡ true →
        interface (DeviceGets d i name version ∷ before) id ≡
        (if i == id then Some (offer d name version) else unless_named d name (interface before id)) }
    ensures refused { (before : List Said) (d i : ℕ) (name : List ℕ) (version : ℕ) → device_pending before d ≡ false →
        Keeps interface before (DeviceGets d i name version) }
    ensures device_goes { (before : List Said) (d serial id : ℕ) →
        interface (DeviceGoes d serial ∷ before) id ≡ unless_of d (interface before id) }
    ensures dropped { (before : List Said) (d id : ℕ) → device_pending before d ≡ true → device_typed before d ≡ false →
        interface (DeviceDone d ∷ before) id ≡ unless_of d (interface before id) }
    ensures done { (before : List Said) (d : ℕ) → device_typed before d ≡ true →
        Keeps interface before (DeviceDone d) }
    ensures not_pending { (before : List Said) (d : ℕ) → device_pending before d ≡ false →
        Keeps interface before (DeviceDone d) }
    ensures goes { (before : List Said) (k : KnownInterface) (i serial id : ℕ) →
        interface (Goes k i serial ∷ before) id ≡
        (if (i == id) && is_some (holder before id) then None else interface before id) }
    ensures other { (before : List Said) (m : Said) → moves_interface m ≡ false → Keeps interface before m }
{}

/// An interface is one of a device that is pending or added.
pub fn holders()
    ensures there { (before : List Said) (id : ℕ) (o : Offer) → interface before id ≡ Some o →
        device_pending before o.device || device_added before o.device ≡ true }
    ensures added { (before : List Said) (id d : ℕ) → holder before id ≡ Some d → device_added before d ≡ true }
    ensures none { (before : List Said) (id : ℕ) → interface before id ≡ None → holder before id ≡ None }
    ensures held { (before : List Said) (id : ℕ) (o : Offer) → interface before id ≡ Some o →
        holder before id ≡ (if device_added before o.device then Some o.device else None) }
    ensures none_in_setup { (before : List Said) (id : ℕ) → interface before id ≡ None →
        is_in_setup before id ≡ false }
    ensures in_setup { (before : List Said) (id : ℕ) (o : Offer) → interface before id ≡ Some o →
        is_in_setup before id ≡ device_pending before o.device }
{}

/// An id that no event brought is that of nothing.
pub fn new_ids()
    ensures more { (before : List Said) (m : Said) (id : ℕ) →
        brought (m ∷ before) id ≡ (brings id m || brought before id) }
    ensures seat_pending { (before : List Said) (id : ℕ) → brought before id ≡ false → seat_pending before id ≡ false }
    ensures seat_added { (before : List Said) (id : ℕ) → brought before id ≡ false → seat_added before id ≡ false }
    ensures device_pending { (before : List Said) (id : ℕ) → brought before id ≡ false →
        device_pending before id ≡ false }
    ensures device_added { (before : List Said) (id : ℕ) → brought before id ≡ false → device_added before id ≡ false }
    ensures seat_of { (before : List Said) (id : ℕ) → brought before id ≡ false → seat_of before id ≡ None }
    ensures interface { (before : List Said) (id : ℕ) → brought before id ≡ false → interface before id ≡ None }
{}

/// Where all new ids differ, an id names one thing: a seat, a device or an interface, and a seat or a device is either
/// pending or added.
pub fn one_thing()
    ensures seat { (before : List Said) (id : ℕ) → NewIdsDiffer before →
        seat_pending before id && seat_added before id ≡ false }
    ensures device { (before : List Said) (id : ℕ) → NewIdsDiffer before →
        device_pending before id && device_added before id ≡ false }
    ensures seat_no_device { (before : List Said) (id : ℕ) → NewIdsDiffer before →
        seat_pending before id || seat_added before id ≡ true →
        device_pending before id || device_added before id ≡ false }
    ensures seat_no_interface { (before : List Said) (id : ℕ) → NewIdsDiffer before →
        seat_pending before id || seat_added before id ≡ true → interface before id ≡ None }
    ensures device_no_interface { (before : List Said) (id : ℕ) → NewIdsDiffer before →
        device_pending before id || device_added before id ≡ true → interface before id ≡ None }
{}
