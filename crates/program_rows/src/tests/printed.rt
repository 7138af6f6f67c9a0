//! The records of a log, the images of a package and those of a configuration, in both formats. The
//! digests are computed by another program.

use fw_json::{inspect_digested_in, log_in, status_in};
use fw_script::read_config;
use fw_trace::RecordsFault;
use fwupd_base::{Form, InspectFault};
use std::test::Fail;

/// A package with the text `pkg`: a record with the set text `A` that uses component 1, component
/// (10, 1) with stamp 7, options 2 and the image `abc`, and component (10, 2) without a stamp and
/// an image. It is made by another program.
static PACKAGE: [u8; 118] = [
    0xF0, 0x18, 0x87, 0x8C, 0xCB, 0x7D, 0x49, 0x43, 0x98, 0x00, 0xA0, 0x2F, 0x05, 0x9A, 0xCA, 0x02,
    0x01, 0x73, 0x00, 0x00, 0x00, 0x00, 0x00, 0x00, 0x00, 0x00, 0x00, 0x00, 0x00, 0x00, 0x00, 0x00,
    0x08, 0x00, 0x01, 0x03, 0x70, 0x6B, 0x67, 0x01, 0x15, 0x00, 0x01, 0x00, 0x00, 0x00, 0x00, 0x01,
    0x01, 0x00, 0x00, 0x01, 0x41, 0x02, 0x00, 0x04, 0x00, 0x11, 0x22, 0x33, 0x44, 0x02, 0x00, 0x0A,
    0x00, 0x01, 0x00, 0x07, 0x00, 0x00, 0x00, 0x02, 0x00, 0x00, 0x00, 0x73, 0x00, 0x00, 0x00, 0x03,
    0x00, 0x00, 0x00, 0x01, 0x02, 0x76, 0x31, 0x0A, 0x00, 0x02, 0x00, 0xFF, 0xFF, 0xFF, 0xFF, 0x00,
    0x00, 0x00, 0x00, 0x76, 0x00, 0x00, 0x00, 0x00, 0x00, 0x00, 0x00, 0x01, 0x02, 0x76, 0x32, 0xB6,
    0x59, 0xD9, 0x60, 0x61, 0x62, 0x63,
];

/// The inspection of the package with digests.
static PACKAGE_TEXT: &[u8] = b"package header 115 records 1 components 2\n\
    record 1 flags 00000000 set \"A\" uses 1\n\
    descriptor 0002 11223344\n\
    component 1 class 10 ident 1 stamp 00000007 options 0002 offset 115 size 3 version \"v1\"\n\
    component 2 class 10 ident 2 stamp FFFFFFFF options 0000 offset 118 size 0 version \"v2\"\n\
    image 1 sha256 ba7816bf8f01cfea414140de5dae2223b00361a396177a9cb410ff61f20015ad\n\
    image 2 sha256 e3b0c44298fc1c149afbf4c8996fb92427ae41e4649b934ca495991b7852b855\n";

/// The same as a value.
static PACKAGE_JSON: &[u8] = b"{\"format\":\"fwupd-inspect/1\",\"header_size\":115,\
    \"release\":\"00000000000000000000000000\",\"version\":\"pkg\",\
    \"records\":[{\"number\":1,\"flags\":0,\"set\":\"A\",\"uses\":[1],\
    \"descriptors\":[{\"type\":2,\"data\":\"11223344\"}]}],\
    \"components\":[{\"number\":1,\"classification\":10,\"identifier\":1,\"stamp\":7,\
    \"options\":2,\"activation_methods\":0,\"offset\":115,\"size\":3,\"version\":\"v1\",\
    \"sha256\":\"ba7816bf8f01cfea414140de5dae2223b00361a396177a9cb410ff61f20015ad\"},\
    {\"number\":2,\"classification\":10,\"identifier\":2,\"stamp\":4294967295,\
    \"options\":0,\"activation_methods\":0,\"offset\":118,\"size\":0,\"version\":\"v2\",\
    \"sha256\":\"e3b0c44298fc1c149afbf4c8996fb92427ae41e4649b934ca495991b7852b855\"}]}\n";

/// A configuration of two devices: the images are `abc`, none, and the byte AA.
static CONFIG: &[u8] = b"agent 8 00000000000000000000000000000000\n\
    device 9 00000000000000000000000000000000\n\
    component 10 1 4 7 v1 616263\n\
    component 10 2 0 1 - -\n\
    device 10 00000000000000000000000000000000\n\
    component 65535 65535 255 4294967295 1.0 AA\n";

/// Its active images.
static CONFIG_TEXT: &[u8] = b"device 9\n\
    component 10 ident 1 size 3 stamp 00000007 version \"v1\" \
    sha256 ba7816bf8f01cfea414140de5dae2223b00361a396177a9cb410ff61f20015ad\n\
    component 10 ident 2 size 0 stamp 00000001 version \"\" \
    sha256 e3b0c44298fc1c149afbf4c8996fb92427ae41e4649b934ca495991b7852b855\n\
    device 10\n\
    component 65535 ident 65535 size 1 stamp FFFFFFFF version \"1.0\" \
    sha256 bceef655b5a034911f1c3718ce056531b45ef03b4c7b1f15629e867294011a7d\n";

/// The same as a value.
static CONFIG_JSON: &[u8] = b"{\"format\":\"fwupd-status/1\",\
    \"devices\":[{\"eid\":9,\"components\":[{\"classification\":10,\"identifier\":1,\"index\":4,\
    \"size\":3,\"stamp\":7,\"version\":\"v1\",\
    \"sha256\":\"ba7816bf8f01cfea414140de5dae2223b00361a396177a9cb410ff61f20015ad\"},\
    {\"classification\":10,\"identifier\":2,\"index\":0,\
    \"size\":0,\"stamp\":1,\"version\":\"\",\
    \"sha256\":\"e3b0c44298fc1c149afbf4c8996fb92427ae41e4649b934ca495991b7852b855\"}]},\
    {\"eid\":10,\"components\":[{\"classification\":65535,\"identifier\":65535,\"index\":255,\
    \"size\":1,\"stamp\":4294967295,\"version\":\"1.0\",\
    \"sha256\":\"bceef655b5a034911f1c3718ce056531b45ef03b4c7b1f15629e867294011a7d\"}]}]}\n";

/// The value of the log with these records.
const LOG_JSON: [(&str, &str); 6] = [
    ("", "{\"format\":\"fwupd-sel/1\",\"records\":[]}\n"),
    (
        "0200C10B0000000000000209010001000100C100000000000000040902000B00",
        "{\"format\":\"fwupd-sel/1\",\"records\":[\
        {\"id\":2,\"time\":11,\"event\":\"applied\",\
        \"device\":9,\"package\":1,\"component\":1},\
        {\"id\":1,\"time\":0,\"event\":\"failed\",\
        \"device\":9,\"package\":2,\"cause\":\"11\"}]}\n",
    ),
    (
        "FFFEC1040302010000000409FFFF0800",
        "{\"format\":\"fwupd-sel/1\",\"records\":[\
        {\"id\":65279,\"time\":16909060,\"event\":\"failed\",\
        \"device\":9,\"package\":65535,\"cause\":\"Transfer\"}]}\n",
    ),
    (
        "0100C10500000000000001090100FFFF",
        "{\"format\":\"fwupd-sel/1\",\"records\":[\
        {\"id\":1,\"time\":5,\"event\":\"started\",\"device\":9,\"package\":1}]}\n",
    ),
    (
        "0300020B00000020000401306F01FFFF",
        "{\"format\":\"fwupd-sel/1\",\"records\":[\
        {\"id\":3,\"type\":2,\"data\":\"0B00000020000401306F01FFFF\"}]}\n",
    ),
    (
        "0100C101000000000000010901000000",
        "{\"format\":\"fwupd-sel/1\",\"records\":[\
        {\"id\":1,\"type\":193,\"data\":\"01000000000000010901000000\"}]}\n",
    ),
];

#[test]
fn a_log_is_a_value(rt: HostRuntime) -> Result<(), Fail> {
    for (digits, wanted) in LOG_JSON {
        let bytes = hex::decode(rt.alloc(), digits)?;
        let Ok(line) = log_in(rt.alloc(), &bytes, Form::Json) else {
            return Ok(());
        };
        assert!(rt;
            line.as_slice() == wanted.as_bytes(),
            "{}",
            line.escape_ascii()
        );
    }
    Ok(())
}

#[test]
fn a_log_is_refused_by_its_size_in_both_formats(rt: HostRuntime) {
    for form in [Form::Text, Form::Json] {
        match log_in(rt.alloc(), &[0; 15], form) {
            Ok(_) => assert!(rt; false, "15 bytes"),
            Err(fault) => assert!(rt; fault == RecordsFault::Size),
        }
    }
}

/// Whichever single allocation is refused, the test holds.
#[test]
fn an_inspection_has_the_digest_of_each_image(rt: HostRuntime) {
    for (form, wanted) in [(Form::Text, PACKAGE_TEXT), (Form::Json, PACKAGE_JSON)] {
        match inspect_digested_in(rt.alloc(), &PACKAGE, form) {
            Ok(text) => assert!(rt; text.as_slice() == wanted, "{}", text.escape_ascii()),
            Err(fault) => assert!(rt; fault == InspectFault::Memory),
        }
    }
}

#[test]
fn a_status_has_each_active_image(rt: HostRuntime) -> Result<(), Fail> {
    let Ok(config) = read_config(rt.alloc(), CONFIG) else {
        return Ok(());
    };
    for (form, wanted) in [(Form::Text, CONFIG_TEXT), (Form::Json, CONFIG_JSON)] {
        if let Ok(text) = status_in(rt.alloc(), config.devices.as_slice(), form) {
            assert!(rt; text.as_slice() == wanted, "{}", text.escape_ascii());
        }
    }
    Ok(())
}
