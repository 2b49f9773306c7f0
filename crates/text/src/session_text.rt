// What the program session writes: the steps' lines, the output in hexadecimal or item by item, the question that got no.
pub mod items;
pub mod print;
