// Lists of places, where a rule is put in or taken out.
ghost use Rattle.std.specs.Prelude.{◌≡◌, ◌≤◌, ◌<◌, ◌+◌, ◌-◌, ◌^◌, ℕ, suc, All, IsTrue, OnOk, length, get_or, vec_len, vec_capacity};
ghost use Rattle.std.specs.Global.{Vec as Held};
ghost use Rattle.ug_policy.specs.Places as spec;
ghost use Rattle.ug_policy.specs.Lists.{ArePutIn, AreTakenOut, HasRoomForPlace, HaveRoom, IsPutIn, IsTakenOut};

use crate::reach::Reach;
use ug_types::NoMemory;

// Whether rules of that reach can match ids of that remainder.
fn reaches_to(remainder: usize, reach: Reach) -> bool
    ensures { result ≡ spec.reaches_to remainder reach }
{
    match reach {
        Reach::Narrow(own) => own as usize == remainder,
        Reach::Wide => true,
    }
}

// Places from `at` on are one later. It tells how many stand before them.
fn raise(places: &mut [u32], at: u32) -> usize
    requires { All (λ p. p < 2 ^ 32 - 1) places.old }
    ensures before { result ≡ spec.count_before at places.old }
    ensures within { result ≤ length places.old }
    ensures places { places.new ≡ spec.places_raised at places.old }
    ensures len { length places.new ≡ length places.old }
{
    let mut before = places.len();
    while before > 0 && places[before - 1] >= at {
        before -= 1;
        places[before] += 1;
    }
    before
}

// Places from `at` on are one earlier.
fn lower(places: &mut [u32], at: u32) -> usize
    requires { 0 < at }
    ensures before { result ≡ spec.count_before at places.old }
    ensures within { result ≤ length places.old }
    ensures places { places.new ≡ spec.lowered at places.old }
    ensures len { length places.new ≡ length places.old }
{
    let mut before = places.len();
    while before > 0 && places[before - 1] >= at {
        before -= 1;
        places[before] -= 1;
    }
    before
}

// A rule is put in at `at`, which gets a place here or doesn't.
pub fn put_in(places: &mut Vec<u32>, at: u32, here: bool)
    requires { HasRoomForPlace places.old }
    ensures { IsPutIn here at places.old places.new }
{
    let before = raise(places.as_mut_slice(), at);
    if here {
        let _put = places.insert(before, at);
    }
}

// The rule at `at` is taken out, which has a place here or hasn't.
pub fn take_out(places: &mut Vec<u32>, at: u32, here: bool)
    requires at { at < 2 ^ 32 - 1 }
    requires there { IsTrue here → 0 < spec.count_before (suc at) places.old.items }
    ensures { IsTakenOut here at places.old places.new }
{
    let before = lower(places.as_mut_slice(), at + 1);
    if here {
        let _taken = places.remove(before - 1);
    }
}

pub fn put_in_each(lists: &mut [Vec<u32>], at: u32, reach: Reach)
    requires { HaveRoom lists.old }
    ensures each { ArePutIn reach at lists.old lists.new }
    ensures len { length lists.new ≡ length lists.old }
{
    for i in 0..lists.len() {
        let places = &mut lists[i];
        put_in(places, at, reaches_to(i, reach));
    }
}

pub fn take_out_each(lists: &mut [Vec<u32>], at: u32, reach: Reach)
    requires at { at < 2 ^ 32 - 1 }
    requires there { (r : ℕ) (d : Held ℕ) → r < length lists.old → IsTrue (spec.reaches_to r reach)
        → 0 < spec.count_before (suc at) (get_or lists.old r d).items }
    ensures each { AreTakenOut reach at lists.old lists.new }
    ensures len { length lists.new ≡ length lists.old }
{
    for i in 0..lists.len() {
        let places = &mut lists[i];
        take_out(places, at, reaches_to(i, reach));
    }
}

// Makes room in each list.
pub fn reserve_each(lists: &mut [Vec<u32>]) -> Result<(), NoMemory>
    ensures items { (r : ℕ) (d : Held ℕ) → r < length lists.old
        → (get_or lists.new r d).items ≡ (get_or lists.old r d).items }
    ensures ok { OnOk result ((r : ℕ) (d : Held ℕ) → r < length lists.old
        → vec_len (get_or lists.new r d) < vec_capacity (get_or lists.new r d)) }
    ensures len { length lists.new ≡ length lists.old }
{
    for i in 0..lists.len() {
        let places = &mut lists[i];
        if places.reserve(1).is_err() {
            return Err(NoMemory);
        }
    }
    Ok(())
}
