//! Requests of firmware update.

/// Each command of firmware update, fields that can't be decoded, texts of each encoding, and
/// commands without a name.
pub const COMMANDS: &str = "\
010908CF019F0501|1 9 1 8 > 9 tag 7 pldm rq 31 QueryDeviceIdentifiers
010908CF0187050100|1 9 2 8 > 9 tag 7 pldm rq 7 QueryDeviceIdentifiers 00
010908C801880502|1 9 3 8 > 9 tag 0 pldm rq 8 GetFirmwareParameters
010908C901890510F00100000300011100010561225C7F7E|1 9 4 8 > 9 tag 1 pldm rq 9 RequestUpdate size 496 components 3 outstanding 1 package 17 set \"a\\x22\\x5C\\x7F~\"
010908CA018A0510FFFFFFFFFFFFFF000004024100|1 9 5 8 > 9 tag 2 pldm rq 10 RequestUpdate size 4294967295 components 65535 outstanding 255 set utf-16le 4100
010908CB018B0510AB|1 9 6 8 > 9 tag 3 pldm rq 11 RequestUpdate AB
010908CC018C0510|1 9 7 8 > 9 tag 4 pldm rq 12 RequestUpdate
010908CD018D0513010A00020102FFFFFFFF0000|1 9 8 8 > 9 tag 5 pldm rq 13 PassComponentTable flag 1 class 10 ident 258 index 2 stamp FFFFFFFF version unknown -
010908CE018E051302FFFF0100FF0A0302010202C3A9|1 9 9 8 > 9 tag 6 pldm rq 14 PassComponentTable flag 2 class 65535 ident 1 index 255 stamp 0102030A version utf-8 C3A9
010908CF018F0513040100020000030000000301FE|1 9 10 8 > 9 tag 7 pldm rq 15 PassComponentTable flag 4 class 1 ident 2 index 0 stamp 00000003 version utf-16 FE
010908C801900513030100020000030000000100|1 9 11 8 > 9 tag 0 pldm rq 16 PassComponentTable 030100020000030000000100
010908C9019105140A0001000002000000000010000100000005020041|1 9 12 8 > 9 tag 1 pldm rq 17 UpdateComponent class 10 ident 1 index 0 stamp 00000002 size 1048576 options 00000001 version utf-16be 0041
010908CA019205140A00010000020000000100000000000000070141|1 9 13 8 > 9 tag 2 pldm rq 18 UpdateComponent class 10 ident 1 index 0 stamp 00000002 size 1 options 00000000 version encoding 07 41
010809CB01930515FFFFFFFF20000000|1 9 14 9 > 8 tag 3 pldm rq 19 RequestFirmwareData offset 4294967295 length 32
010809CC0194051501000000|1 9 15 9 > 8 tag 4 pldm rq 20 RequestFirmwareData 01000000
010809CD019505160A|1 9 16 9 > 8 tag 5 pldm rq 21 TransferComplete result 0A
010809CE0196051701|1 9 17 9 > 8 tag 6 pldm rq 22 VerifyComplete result 01
010809CF01970518FF3412|1 9 18 9 > 8 tag 7 pldm rq 23 ApplyComplete result FF methods 1234
010908C80198051A00|1 9 19 8 > 9 tag 0 pldm rq 24 ActivateFirmware self 0
010908C90199051A02|1 9 20 8 > 9 tag 1 pldm rq 25 ActivateFirmware 02
010908CA019A051B|1 9 21 8 > 9 tag 2 pldm rq 26 GetStatus
010908CB019B051C|1 9 22 8 > 9 tag 3 pldm rq 27 CancelUpdateComponent
010908CC019C051D|1 9 23 8 > 9 tag 4 pldm rq 28 CancelUpdate
010908CD019D050312|1 9 24 8 > 9 tag 5 pldm rq 29 03 12
010908CE019E051E|1 9 25 8 > 9 tag 6 pldm rq 30 1E
";
