mod disks;
mod journals;
