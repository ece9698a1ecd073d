// The mount tables: mount, restored mount and unmount, on an instance in lent bytes.
#![tactic(auto)]

mod first_rows;
pub mod mounting;
pub mod restored_mounting;
pub mod unmounting;
