// The laws can be called.
use sgb_induced::least_law;
use sgb_make::{binary_law, ride_law, rotation_law};

#[test]
fn of_rides(_rt: HostRuntime) {
    ride_law();
}

#[test]
fn of_trees() {
    binary_law();
    rotation_law();
}

#[test]
fn of_induced_graphs() {
    least_law();
}
