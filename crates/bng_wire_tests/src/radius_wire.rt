mod checks;
mod reads;
mod signs;
mod writes;
