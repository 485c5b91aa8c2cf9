// What a loop table is made of, as far as code passes it by value. The definitions are in specs/.
#![tactic(auto)]

// Iteration `index` of loop `number`.
#[derive(Clone, Copy)]
pub struct Iteration {
    pub number: usize,
    pub index: usize,
}

// What iteration i of loop `number` reads or stores: element i + offset of an array. An offset o is kept as o + 255.
#[derive(Clone, Copy)]
pub struct Reference {
    pub number: usize,
    pub array: usize,
    pub offset: usize,
    pub stores: bool,
}
