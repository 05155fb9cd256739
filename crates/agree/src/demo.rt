// The demonstration: a worked pair of forms, and worked banks.
pub const DEMO: &str = "form ref 02 01 00 02 06 00 01 00 09 01 01 0a 00
form cmp 02 01 02 03 00 20 02 06 00 02 02 09 01 02 00 02 20 0a 02
show ref
show cmp
bank n nested 0x1122334455667788
put n 2 0xaabbccdd
show n
bank n nested 0x1122334455667788
put n 0 0x99
show n
bank v variables 4 4
bank f frame n 4
show v
show f
";
