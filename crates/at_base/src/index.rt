//! Numbers in rising order, as slices and vectors: an index, searched by halving.

ghost use Rattle.std.specs.Prelude.{◌≡◌, ◌≤◌, ◌<◌, length, vec_capacity, vec_len};
ghost use Rattle.at_base.specs.Numbers as spec;
ghost use Rattle.at_base.specs.Numbers.{AreRising, below, with_number, without_number};

/// How many numbers come before the first one that isn't below `number`.
fn place_of(numbers: &[u64], number: u64) -> usize
    requires { AreRising 0 numbers.now }
    ensures place { result ≡ below number numbers.now }
    ensures inside { result ≤ length numbers.now }
{
    numbers.partition_point(|other| *other < number)
}

/// Puts a number at its place. The vector must have room.
pub fn put_number(numbers: &mut Vec<u64>, number: u64)
    requires rising { AreRising 0 numbers.old.items }
    requires room { vec_len numbers.old < vec_capacity numbers.old }
    ensures put { numbers.new.items ≡ with_number number numbers.old.items }
    ensures room { vec_capacity numbers.new ≡ vec_capacity numbers.old }
{
    let place = place_of(numbers.as_slice(), number);
    numbers.insert(place, number).unwrap();
}

/// Takes a number out, once, if it is there.
pub fn take_number(numbers: &mut Vec<u64>, number: u64)
    requires { AreRising 0 numbers.old.items }
    ensures kept { numbers.new.items ≡ without_number number numbers.old.items }
    ensures room { vec_capacity numbers.new ≡ vec_capacity numbers.old }
{
    let place = place_of(numbers.as_slice(), number);
    if place < numbers.len() && numbers[place] == number {
        numbers.remove(place);
    }
}

/// The places of the numbers from `low` on that are below `high`: of the first, and past the last.
fn places_between(numbers: &[u64], low: u64, high: u64) -> (usize, usize)
    requires rising { AreRising 0 numbers.now }
    requires span { low ≤ high }
    ensures places { result ≡ (below low numbers.now, below high numbers.now) }
    ensures inside { result.1 ≤ length numbers.now }
    ensures apart { result.0 ≤ result.1 }
{
    (place_of(numbers, low), place_of(numbers, high))
}

/// The numbers from `low` on that are below `high`.
pub fn numbers_between(numbers: &[u64], low: u64, high: u64) -> &[u64]
    requires rising { AreRising 0 numbers.now }
    requires span { low ≤ high }
    ensures { result.now ≡ spec.between low high numbers.now }
{
    let (first, end) = places_between(numbers, low, high);
    &numbers[first..end]
}
