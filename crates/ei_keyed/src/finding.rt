//! Where a key stands among places. Each has a key, and a value unless that was taken out.

ghost use Rattle.std.specs.Prelude.{◌≡◌, ◌<◌, ◌++◌, ◌∷◌, [], true, length, position, IfSome, IfNone, None, Option};
ghost use Rattle.ei_keyed.specs.Keyed.{RiseFrom};
ghost use Rattle.ei_keyed.specs.Places.{is_of_key, IsPlace, HasKey};

/// Where the first value of a key stands.
#[inline(always)]
pub(crate) fn find<V>(places: &[(u64, Option<V>)], rising: bool, key: u64) -> Option<usize>
    requires { rising ≡ true → RiseFrom 0 places.now }
    ensures { result ≡ position (is_of_key key) places.now }
{
    match likely(places, rising, key) {
        Some(at) => Some(at),
        None => search(places, rising, key),
    }
}

/// The same, if it stands where it does when no key between the first one and it is missing, and the keys rise.
#[inline(always)]
pub(crate) fn likely<V>(places: &[(u64, Option<V>)], rising: bool, key: u64) -> Option<usize>
    requires { rising ≡ true → RiseFrom 0 places.now }
    ensures { IfSome result (IsPlace key places.now) }
{
    if !rising {
        return None;
    }
    let first = places.first()?.0;
    let at = key.wrapping_sub(first);
    if at >= places.len() as u64 {
        return None;
    }
    place_if(places, at as usize, key)
}

/// The place, if the key has its value there. The keys rise.
#[inline(always)]
fn place_if<V>(places: &[(u64, Option<V>)], at: usize, key: u64) -> Option<usize>
    requires rises { RiseFrom 0 places.now }
    requires within { at < length places.now }
    ensures place { IfSome result (IsPlace key places.now) }
{
    let place = &places[at];
    if key == place.0 && place.1.is_some() {
        Some(at)
    } else {
        None
    }
}

/// Where the first value of a key stands, by halves, or among all.
#[inline(never)]
fn search<V>(places: &[(u64, Option<V>)], rising: bool, key: u64) -> Option<usize>
    requires { rising ≡ true → RiseFrom 0 places.now }
    ensures { result ≡ position (is_of_key key) places.now }
{
    if !rising {
        return places
            .iter()
            .position(|place| key == place.0 && place.1.is_some());
    }
    if let Some(at) = likely_from_last(places, key) {
        return Some(at);
    }
    search_by_halves(places, key)
}

/// The place, if it stands where it does when no key between it and the last one is missing. The keys rise.
fn likely_from_last<V>(places: &[(u64, Option<V>)], key: u64) -> Option<usize>
    requires { RiseFrom 0 places.now }
    ensures { IfSome result (IsPlace key places.now) }
{
    let last = places.last()?.0;
    let behind = last.wrapping_sub(key);
    let len = places.len() as u64;
    if behind >= len {
        return None;
    }
    place_if(places, (len - 1 - behind) as usize, key)
}

/// Where the value of a key stands, by halves. The keys rise.
fn search_by_halves<V>(places: &[(u64, Option<V>)], key: u64) -> Option<usize>
    requires { RiseFrom 0 places.now }
    ensures { result ≡ position (is_of_key key) places.now }
{
    let at = place_of(places, key)?;
    if places[at].1.is_some() {
        Some(at)
    } else {
        None
    }
}

/// Where the key stands, with or without a value. The keys rise.
fn place_of<V>(places: &[(u64, Option<V>)], key: u64) -> Option<usize>
    requires { RiseFrom 0 places.now }
    ensures found { IfSome result (HasKey key places.now) }
    ensures absent { IfNone result (position (is_of_key key) places.now ≡ None) }
{
    places.binary_search_by_key(&key, |place| place.0).ok()
}

/// Whether the keys rise, once this one stands behind them.
pub(crate) fn rises_with<V>(places: &[(u64, Option<V>)], rising: bool, key: u64) -> bool
    requires { rising ≡ true → RiseFrom 0 places.now }
    ensures { (value : Option V) → result ≡ true → RiseFrom 0 (places.now ++ (key, value) ∷ []) }
{
    match places.last() {
        Some(last) => rising && last.0 < key,
        None => true,
    }
}
