//! How many classes least places make.
ghost use Rattle.std.specs.Prelude.{◌≡◌, ◌<◌, ◌^◌, [], length};
ghost use Rattle.class_partition.specs.Classes.{class_count};
ghost use Rattle.class_partition.specs.Steps.{classes_of};

// The number of places that are the least of their class.
pub(crate) fn count_least(least: &[u32]) -> u32
    requires { length least.now < 2 ^ 32 }
    ensures { result ≡ class_count (length least.now) (classes_of least.now []) }
{
    let mut count: u32 = 0;
    for p in 0..least.len() {
        if least[p] as usize == p {
            count += 1;
        }
    }
    count
}
