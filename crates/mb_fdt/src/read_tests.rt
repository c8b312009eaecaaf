use super::{Attr, Fdt, FileFault, is_described, read_fdt, write_fdt};
use mb_base::Memory;
use mb_geom::{DescFault, Scheme};
use std::alloc::Global;
use std::test::Fail;

/// The text of an instance with one file, of 282 bytes.
const TEXT1: &str =
    "<?xml version=\"1.0\" encoding=\"UTF-8\"?>\n<FDT-Instance Expires=\"3900000000\">\n<File Content-Location=\"hello.txt\" TOI=\"5\" Content-Length=\"5\" Transfer-Length=\"5\" FEC-OTI-FEC-Encoding-ID=\"0\" FEC-OTI-Maximum-Source-Block-Length=\"64\" FEC-OTI-Encoding-Symbol-Length=\"1400\"/>\n</FDT-Instance>\n";

/// The text of an instance with one file that has an MD5, of 321 bytes.
const TEXT2: &str =
    "<?xml version=\"1.0\" encoding=\"UTF-8\"?>\n<FDT-Instance Expires=\"3900000000\">\n<File Content-Location=\"hello.txt\" TOI=\"1\" Content-Length=\"5\" Transfer-Length=\"5\" Content-MD5=\"XUFAKrxLKna5cZ2REBfFkg==\" FEC-OTI-FEC-Encoding-ID=\"0\" FEC-OTI-Maximum-Source-Block-Length=\"64\" FEC-OTI-Encoding-Symbol-Length=\"1400\"/>\n</FDT-Instance>\n";

/// The MD5 of the five bytes of that file.
const HELLO_MD5: [u8; 16] = [
    0x5d, 0x41, 0x40, 0x2a, 0xbc, 0x4b, 0x2a, 0x76, 0xb9, 0x71, 0x9d, 0x91, 0x10, 0x17, 0xc5, 0x92,
];

/// A root's start tag, of 26 bytes.
const ROOT: &str = "<FDT-Instance Expires=\"1\">";

/// The coding of a file under Compact No-Code.
const OTI: &str =
    " FEC-OTI-FEC-Encoding-ID=\"0\" FEC-OTI-Maximum-Source-Block-Length=\"64\" FEC-OTI-Encoding-Symbol-Length=\"1400\"";

/// The fault of a text and its place, or `read`.
fn answer_for(alloc: Global, text: &[u8]) -> Result<String, Memory> {
    match read_fdt(alloc, text)? {
        Ok(_) => Ok(String::from_str(alloc, "read")?),
        Err(fault) => Ok(format!(in alloc; "{:?} at {}", fault.kind, fault.place)?),
    }
}

/// Rows of a fault, its place, and a text.
const FAULTS: &str = r#"Syntax at 0 | a
Syntax at 1 | <
Syntax at 2 | <!
Syntax at 3 | <!-
Syntax at 4 | <!--
Syntax at 2 | <!x
Syntax at 1 | <1
Syntax at 1 | </
Syntax at 4 | <foo
Syntax at 4 | <foo>
Syntax at 13 | <FDT-Instance
Syntax at 14 | <FDT-Instance/
Syntax at 14 | <FDT-Instance:
NoExpires at 0 | <foo:FDT-Instance/>
Syntax at 4 | <?xmk
Syntax at 5 | <?xml?>
Syntax at 7 | <?xml ?
Syntax at 7 | <?xml >
Forbidden at 1 |  <?xml ?>
Forbidden at 8 | <?xml ?><?xml ?>
Forbidden at 8 | <?xml ?><!DOCTYPE
Forbidden at 0 | <!DOCTYPE
Syntax at 2 | <!DOCTYP
Syntax at 2 | <!DOCTYPe
Syntax at 2 | <![CDAT<
NoExpires at 0 | <FDT-Instance/>
NoExpires at 0 | <FDT-Instance>
NoExpires at 8 | <!-- --><FDT-Instance expires='1' x:Expires='1'>
BadExpires at 1 |  <FDT-Instance Expires=''/>
BadExpires at 0 | <FDT-Instance Expires="-1">
BadExpires at 0 | <FDT-Instance Expires="4294967296"/>
Syntax at 33 | <FDT-Instance Expires='x' Expires
RepeatedAttribute at 26 | <FDT-Instance Expires='x' Expires=
Syntax at 25 | <FDT-Instance Expires="x"
Syntax at 25 | <FDT-Instance Expires="x"x
RepeatedAttribute at 26 | <FDT-Instance Expires="1" Expires!
Syntax at 33 | <FDT-Instance Expires="1" Expires
RepeatedAttribute at 26 | <FDT-Instance Complete='' Complete=
RepeatedAttribute at 30 | <FDT-Instance Content-Type='' Content-Type=
NoExpires at 0 | <FDT-Instance a='' a='' TOI='' TOI='' />
NoExpires at 0 | <FDT-Instance Other="&x"/>
Syntax at 29 | <FDT-Instance Content-Type="&x
Syntax at 28 | <FDT-Instance Complete='&amp
Syntax at 28 | <FDT-Instance Complete='&amp'
Syntax at 27 | <FDT-Instance Complete='&#x;
Syntax at 26 | <FDT-Instance Complete='&#;
Syntax at 26 | <FDT-Instance Expires="&#0;
Syntax at 31 | <FDT-Instance Expires="&#1114112;
Syntax at 30 | <FDT-Instance Expires="&#xD800;
Syntax at 25 | <FDT-Instance Expires="&#X41;
Syntax at 23 | <FDT-Instance Expires="<
BadExpires at 0 | <FDT-Instance Expires='&lt;'/>
Syntax at 28 | <FDT-Instance Expires="1"/><a
Syntax at 27 | <FDT-Instance Expires="1"/>x
Syntax at 29 | <FDT-Instance Expires="1"/><!
Syntax at 26 | <FDT-Instance Expires="1"/ >
Forbidden at 27 | <FDT-Instance Expires="1"/><?
Forbidden at 39 | <FDT-Instance Expires="1"/><!-- <? --> <!DOCTYPE"#;

/// The same of texts behind the root's start tag.
const FAULTS_INSIDE: &str = r#"Forbidden at 26 | <![CDATA[
Syntax at 28 | <![CDAT
Syntax at 28 | <![CDATx
Forbidden at 26 | <?
Syntax at 27 | <
Syntax at 28 | <!
Syntax at 29 | <!-
Syntax at 30 | <!--
Syntax at 32 | <!----
Syntax at 32 | <!--->
Forbidden at 30 | <a/><!DOCTYPE
Syntax at 32 | <a b='<![CDATA['
Syntax at 28 | </
Syntax at 28 | </=
Syntax at 33 | <x:a></a>
Syntax at 32 | <a></a:x>
Syntax at 31 | <a></A>
Syntax at 39 | </FDT-Instancx>
Syntax at 40 | </FDT-Instance
Syntax at 42 | </FDT-Instance >x
Syntax at 30 | <a b
Syntax at 31 | <a b c
Syntax at 31 | <a b=c
Syntax at 34 | <a b='c'd
RepeatedAttribute at 39 | <File TOI='' TOI=
Syntax at 38 | <File TOI=''TOI
RepeatedAttribute at 50 | <x:File Content-Type='' Content-Type=
Syntax at 66 | <File Expires='' Expires='' Complete='&'<
Syntax at 73 | <a TOI='' TOI='&'/><b><File TOI='' TOI=''/></b>"#;

/// The first row that doesn't say what is answered for its text behind this front.
fn wrong_fault(alloc: Global, front: &str, rows: &str) -> Result<Option<String>, Memory> {
    for row in rows.split('\n') {
        let (said, rest) = row.split_once(" | ").unwrap_or(("", row));
        let text = format!(in alloc; "{front}{rest}")?;
        let answer = answer_for(alloc, text.as_bytes())?;
        if answer.as_str() != said {
            return Ok(Some(format!(in alloc; "{answer} for {row}")?));
        }
    }
    Ok(None)
}

#[test]
fn faults_stand_at_their_places(rt: HostRuntime) -> Result<(), Fail> {
    for (front, rows) in [("", FAULTS), (ROOT, FAULTS_INSIDE)] {
        let wrong = wrong_fault(rt.alloc(), front, rows)?;
        assert!(rt; wrong.is_none(), "{wrong:?}");
    }
    Ok(())
}

#[test]
fn bytes_that_are_no_text_have_their_place(rt: HostRuntime) -> Result<(), Fail> {
    for (text, said) in [
        (&b""[..], "Syntax at 0"),
        (b"\xef\xbb\xbf <?", "Forbidden at 4"),
        (b"\xef\xbb\xbc", "Syntax at 2"),
        (b"\xef\xbc\x81", "Syntax at 1"),
        (b"<FDT-Instance Expires='1'>", "Syntax at 26"),
        (b"<FDT-Instance Expires='1'>]]>&\0<a></b>", "Syntax at 36"),
        (b"\xff", "NotUtf8 at 0"),
        (b"<FDT-Instance Expires=\"1\"/>\xc3", "NotUtf8 at 27"),
        (b"<FDT-Instance Expires=\"\xe2\x82\"/>", "NotUtf8 at 23"),
        (b"<![CDATA[\xed\xa0\x80", "NotUtf8 at 9"),
        (
            b"<FDT-Instance Expires='1'>\xe2\x82\xac \xc0\xaf</FDT-Instance>",
            "NotUtf8 at 30",
        ),
        (
            b"<FDT-Instance Expires='1'><!-- \xf4\x90\x80\x80",
            "NotUtf8 at 31",
        ),
        (b"<FDT-Instance Expires='1'/>\xf0\x9f\x92", "NotUtf8 at 27"),
        (b"\xfe\xff\0<\0F", "NotUtf8 at 0"),
        (b"\xff\xfe<\0F\0", "NotUtf8 at 0"),
        (b"\0<\0F", "Syntax at 0"),
        (b"<\0F\0", "Syntax at 1"),
        (b"\xef\xbb", "NotUtf8 at 0"),
        (b"\xef\xbb\xbf\xef\xbb\xbf", "Syntax at 3"),
        (b"\xef\xbb\xbf", "Syntax at 3"),
        (b"\xef\xbb\xbf<FDT-Instance/>", "NoExpires at 3"),
        (b" \xef\xbb\xbf<FDT-Instance/>", "Syntax at 1"),
        (
            b"\xef\xbb\xbf<?xml ??><!-- -- ---><FDT-Instance Expires='1'/>",
            "read",
        ),
        (b"<FDT-Instance Expires='0'/>", "read"),
        (
            b"\xef\xbb\xbf\r\n\t <FDT-Instance\nExpires\t=\r'01 '/>\n<!---->",
            "read",
        ),
        (
            b"<\xc3\xa9:x:FDT-Instance Expires='&#x31;' \xc3\xa9=\"'>&!\"></\xc3\xa9:x:FDT-Instance\t>",
            "read",
        ),
        (b"<FDT-Instance Expires='1' \xc3\xa9='<'/>", "Syntax at 30"),
    ] {
        let answer = answer_for(rt.alloc(), text)?;
        assert!(rt; answer.as_str() == said, "{answer}");
    }
    Ok(())
}

/// A text that has so many times this behind the root's start tag, and then what stands behind.
fn nested(alloc: Global, inner: &str, count: u32, behind: &str) -> Result<String, Memory> {
    let mut text = String::new(alloc);
    text.push_str(ROOT)?;
    for _ in 0..count {
        text.push_str(inner)?;
    }
    text.push_str(behind)?;
    Ok(text)
}

// The last texts have 65,536 bytes.
#[test]
fn depth_and_count_have_their_limits(rt: HostRuntime) -> Result<(), Fail> {
    for (inner, count, behind, said) in [
        ("<a>", 15, "<", "Syntax at 72"),
        ("<a>", 15, "<a", "Depth at 71"),
        ("<a>", 15, "<1", "Syntax at 72"),
        ("<a>", 15, "<!-- --></a><a/", "Syntax at 86"),
        ("<a>", 15, "</a><a></a><a><a", "Depth at 85"),
        ("<a>", 15, "</b", "Syntax at 73"),
        ("<a>", 15, "<File/>", "Depth at 71"),
        ("<File/>", 1024, "</FDT-Instance>", "read"),
        ("<File/>", 1024, "<a:File", "Syntax at 7201"),
        ("<File/>", 1024, "<a:File!", "TooManyFiles at 7194"),
        (
            "<File/>",
            1024,
            "<Files><File/></Files></FDT-Instance>",
            "read",
        ),
        ("<File/>", 1023, "<File/><File/>", "TooManyFiles at 7194"),
        ("<!-- -->", 8186, "       </FDT-Instance>", "read"),
        (
            "<!-- -->",
            8186,
            "        </FDT-Instance",
            "Syntax at 65536",
        ),
        (
            "<!-- -->",
            8186,
            "       </FDT-Instance!",
            "Syntax at 65535",
        ),
    ] {
        let text = nested(rt.alloc(), inner, count, behind)?;
        let answer = answer_for(rt.alloc(), text.as_bytes())?;
        assert!(rt;
            answer.as_str() == said,
            "{answer} for {count} times {inner} and {behind}"
        );
    }
    Ok(())
}

/// The attributes of a File element that are read first.
const NAMED: &str = "Content-Location='a' TOI='1'";

/// The same, and a length of five bytes.
const SIZED: &str = "Content-Location='a' TOI='1' Content-Length='5'";

/// The TOI of the entry of a File element with these attributes, under a root with those, and why it is refused.
fn entry_for(alloc: Global, root: &str, file: &str) -> Result<String, Memory> {
    let text = format!(in alloc; "<FDT-Instance Expires='1' {root}><File {file}/></FDT-Instance>")?;
    let Ok(fdt) = read_fdt(alloc, text.as_bytes())? else {
        return Ok(String::from_str(alloc, "no text")?);
    };
    let [entry] = fdt.files.as_slice() else {
        return Ok(String::from_str(alloc, "not one file")?);
    };
    let fault = match &entry.entry {
        Ok(_) => None,
        Err(fault) => Some(*fault),
    };
    Ok(format!(in alloc; "{:?}, {fault:?}", entry.toi)?)
}

/// Rows of a TOI, why its file is refused, the attributes of the root and those of the File element. In each `$`
/// stands for a whole coding.
const ENTRIES: &str = r#"None, Some(NoLocation) |  | TOI='0'
Some(7), Some(NoLocation) |  | TOI='7' Content-MD5=''
None, Some(NoToi) |  | Content-Location='' Content-Length='x' Content-MD5=''
None, Some(BadNumber(Toi)) |  | Content-Location='' TOI='0'
None, Some(BadNumber(Toi)) |  | Content-Location='' TOI='5192296858534827628530496329220096'
Some(5192296858534827628530496329220095), Some(Desc(NoLength)) |  | Content-Location='' TOI='5192296858534827628530496329220095'
Some(1), Some(BadNumber(ContentLength)) |  | Content-Location='' TOI=' 1&#10;' Content-Length='18446744073709551616'
None, Some(BadNumber(Toi)) |  | Content-Location='' TOI='+1'
Some(1), Some(BadNumber(TransferLength)) |  | Content-Location='' TOI='1' Transfer-Length=''
Some(1), Some(BadNumber(FecOtiFecEncodingId)) |  | Content-Location='' TOI='1' FEC-OTI-FEC-Encoding-ID='256'"#;

/// The same with the attributes of the File element behind those that name it.
const NAMED_ENTRIES: &str = r#"Some(1), None | $ | Content-Length='0'
Some(1), None | $ | Content-Length='268435456'
Some(1), Some(Desc(TooLong)) | $ | Content-Length='268435457'
Some(1), Some(Desc(TooLong)) | $ | Content-Length='18446744073709551615'
Some(1), Some(BadNumber(ContentLength)) | $ | Content-Length='18446744073709551616'
Some(1), None | $ | Transfer-Length='0'
Some(1), Some(Desc(TooLong)) | $ | Transfer-Length='18446744073709551615'
Some(1), Some(BadNumber(TransferLength)) | $ | Transfer-Length='18446744073709551616'
Some(1), None | $ | Content-Length='65536' FEC-OTI-Maximum-Source-Block-Length='1' FEC-OTI-Encoding-Symbol-Length='1'
Some(1), Some(Desc(TooManyBlocks)) | $ | Content-Length='65537' FEC-OTI-Maximum-Source-Block-Length='1' FEC-OTI-Encoding-Symbol-Length='1'
Some(1), Some(Desc(BlockSize(0, 65537))) | $ | Content-Length='65537' FEC-OTI-Maximum-Source-Block-Length='65537' FEC-OTI-Encoding-Symbol-Length='1'
Some(1), None | $ | Content-Length='16' FEC-OTI-FEC-Encoding-ID='1' FEC-OTI-Encoding-Symbol-Length='4' FEC-OTI-Scheme-Specific-Info='AAEBBA=='
Some(1), Some(Desc(BlockSize(0, 3))) | $ | Content-Length='12' FEC-OTI-FEC-Encoding-ID='1' FEC-OTI-Encoding-Symbol-Length='4' FEC-OTI-Scheme-Specific-Info='AAEBBA=='
Some(1), Some(Desc(Parameters)) | $ | Content-Length='16' FEC-OTI-FEC-Encoding-ID='1' FEC-OTI-Encoding-Symbol-Length='4' FEC-OTI-Scheme-Specific-Info='AAABBA=='
Some(1), None | $ | Content-Length='32' FEC-OTI-FEC-Encoding-ID='1' FEC-OTI-Encoding-Symbol-Length='8' FEC-OTI-Scheme-Specific-Info='AAECBA=='
Some(1), Some(Desc(Parameters)) | $ | Content-Length='32' FEC-OTI-FEC-Encoding-ID='1' FEC-OTI-Encoding-Symbol-Length='4' FEC-OTI-Scheme-Specific-Info='AAECBA=='"#;

/// The same with the attributes of the File element behind those and a length.
const SIZED_ENTRIES: &str = r#"Some(1), None | $ |
Some(1), None |  | $
Some(1), None | FEC-OTI-FEC-Encoding-ID='x' | $
Some(1), None | FEC-OTI-Scheme-Specific-Info='!' | $
Some(1), None | Content-Encoding='' | $
Some(1), Some(Desc(Encoded)) | Content-Encoding='a' | $
Some(1), Some(Desc(Encoded)) | $ | Content-Encoding='&#32;'
Some(1), Some(Desc(NoScheme)) |  |
Some(1), Some(BadNumber(FecOtiFecEncodingId)) | FEC-OTI-FEC-Encoding-ID='x' |
Some(1), Some(Desc(NoScheme)) | $ | FEC-OTI-FEC-Encoding-ID='2'
Some(1), Some(BadNumber(FecOtiFecEncodingId)) | $ | FEC-OTI-FEC-Encoding-ID='a'
Some(1), Some(BadNumber(FecOtiMaximumSourceBlockLength)) | $ | FEC-OTI-Maximum-Source-Block-Length='4294967296'
Some(1), Some(BadNumber(FecOtiEncodingSymbolLength)) | $ | FEC-OTI-Encoding-Symbol-Length='65536'
Some(1), Some(Desc(NoScheme)) | $ | FEC-OTI-FEC-Encoding-ID='1'
Some(1), Some(BadInfo) | $ | FEC-OTI-FEC-Encoding-ID='1' FEC-OTI-Scheme-Specific-Info='AAEB'
Some(1), Some(BadMd5) | $ | Content-MD5='XUFAKrxLKna5cZ2REBfF'
Some(1), Some(BadMd5) | $ | Content-MD5=' XUFAKrxLKna5cZ2REBfFkg=='
Some(1), None | $ | Content-MD5='XUFAKrxLKna5cZ2REBfFkg&#61;='
Some(1), Some(Desc(LengthsDiffer)) | $ | Transfer-Length='6'
Some(1), Some(Desc(NoScheme)) | $ | FEC-OTI-FEC-Encoding-ID='255'
Some(1), Some(BadNumber(FecOtiFecEncodingId)) | $ | FEC-OTI-FEC-Encoding-ID='256'
Some(1), Some(Desc(Parameters)) | $ | FEC-OTI-Maximum-Source-Block-Length='0'
Some(1), None | $ | FEC-OTI-Maximum-Source-Block-Length='4294967295'
Some(1), Some(Desc(ZeroSymbol)) | $ | FEC-OTI-Encoding-Symbol-Length='0'
Some(1), None | $ | FEC-OTI-Encoding-Symbol-Length='0001'
Some(1), None | $ | FEC-OTI-Encoding-Symbol-Length='65535'"#;

/// The first row that doesn't say what the entry is with these attributes in front.
fn wrong_entry(alloc: Global, front: &str, rows: &str) -> Result<Option<String>, Memory> {
    for row in rows.split('\n') {
        let whole = row.replace(alloc, "$", OTI)?;
        let text = whole.as_str();
        let (said, rest) = text.split_once(" | ").unwrap_or(("", text));
        let (root, behind) = rest.split_once(" |").unwrap_or(("", rest));
        let file = format!(in alloc; "{front}{behind}")?;
        let answer = entry_for(alloc, root, file.as_str())?;
        if answer.as_str() != said {
            return Ok(Some(format!(in alloc; "{answer} for {row}")?));
        }
    }
    Ok(None)
}

#[test]
fn files_are_refused_by_their_first_reason(rt: HostRuntime) -> Result<(), Fail> {
    for (front, rows) in [
        ("", ENTRIES),
        (NAMED, NAMED_ENTRIES),
        (SIZED, SIZED_ENTRIES),
    ] {
        let wrong = wrong_entry(rt.alloc(), front, rows)?;
        assert!(rt; wrong.is_none(), "{wrong:?}");
    }
    Ok(())
}

/// For each attribute that may refuse a file, how it does, how it doesn't, and the refusal, in the order of the
/// refusals.
const REFUSALS: [(&str, &str, FileFault); 9] = [
    ("", " Content-Location=''", FileFault::NoLocation),
    (" TOI='0'", " TOI='1'", FileFault::BadNumber(Attr::Toi)),
    (
        " Content-Length=''",
        " Content-Length='268435457'",
        FileFault::BadNumber(Attr::ContentLength),
    ),
    (
        " Transfer-Length='-5'",
        " Transfer-Length='268435457'",
        FileFault::BadNumber(Attr::TransferLength),
    ),
    (
        " FEC-OTI-FEC-Encoding-ID='0x1'",
        " FEC-OTI-FEC-Encoding-ID='1'",
        FileFault::BadNumber(Attr::FecOtiFecEncodingId),
    ),
    (
        " FEC-OTI-Encoding-Symbol-Length='1.0'",
        " FEC-OTI-Encoding-Symbol-Length='0'",
        FileFault::BadNumber(Attr::FecOtiEncodingSymbolLength),
    ),
    (
        " Content-MD5=''",
        " Content-MD5='XUFAKrxLKna5cZ2REBfFkg=='",
        FileFault::BadMd5,
    ),
    (
        " FEC-OTI-Scheme-Specific-Info='AAEBBAE='",
        " FEC-OTI-Scheme-Specific-Info='AAABBA=='",
        FileFault::BadInfo,
    ),
    (
        " Content-Encoding='gzip'",
        " Content-Encoding=''",
        FileFault::Desc(DescFault::Encoded),
    ),
];

/// The attributes of a File element of which so many, the first ones, don't refuse it.
fn refused_file(alloc: Global, good: usize) -> Result<String, Memory> {
    let mut file = String::new(alloc);
    for (i, (refused, taken, _)) in REFUSALS.iter().enumerate() {
        file.push_str(if i < good { taken } else { refused })?;
    }
    Ok(file)
}

#[test]
fn of_several_reasons_the_first_is_given(rt: HostRuntime) -> Result<(), Fail> {
    for (good, (_, _, fault)) in REFUSALS.iter().enumerate() {
        let file = refused_file(rt.alloc(), good)?;
        let answer = entry_for(rt.alloc(), "", file.as_str())?;
        let said = format!(in rt.alloc(); ", Some({fault:?})")?;
        assert!(rt;
            answer.as_str().ends_with(said.as_str()),
            "{answer} for {file}"
        );
    }
    Ok(())
}

#[test]
fn locations_have_at_most_2048_bytes(rt: HostRuntime) -> Result<(), Fail> {
    for (last, said) in [
        ("&amp;", "Some(1), None"),
        ("a&amp;", "Some(1), Some(LongLocation)"),
        ("&#xe9;", "Some(1), Some(LongLocation)"),
    ] {
        let mut location = String::new(rt.alloc());
        for _ in 0..2047 {
            location.push('b')?;
        }
        let file = format!(in rt.alloc();
            " TOI='1' Content-Length='5' Content-Location='{location}{last}'"
        )?;
        let answer = entry_for(rt.alloc(), OTI, file.as_str())?;
        assert!(rt; answer.as_str() == said, "{answer} for {last}");
    }
    Ok(())
}

/// What an instance of one file says.
#[derive(Clone, Copy)]
struct Says<'a> {
    expires: u64,
    complete: bool,
    toi: u128,
    location: &'a [u8],
    length: u64,
    symbol: u16,
    scheme: Scheme,
    md5: Option<[u8; 16]>,
}

/// Whether the instance has one file and says this.
fn has_one_file(fdt: &Fdt, said: &Says<'_>) -> bool {
    let [entry] = fdt.files.as_slice() else {
        return false;
    };
    let Ok(desc) = &entry.entry else {
        return false;
    };
    let instance = fdt.expires == said.expires && fdt.complete == said.complete;
    let file = entry.toi == Some(said.toi) && desc.location() == said.location;
    let sizes = desc.length() == said.length && desc.symbol() == said.symbol;
    let coding = desc.scheme() == said.scheme && desc.md5() == said.md5;
    instance && file && sizes && coding
}

/// Whether reading the text gives an instance of one file that says this.
fn is_read_as(alloc: Global, text: &str, said: &Says<'_>) -> Result<bool, Memory> {
    match read_fdt(alloc, text.as_bytes())? {
        Ok(fdt) => Ok(has_one_file(&fdt, said)),
        Err(_) => Ok(false),
    }
}

#[test]
fn worked_texts_are_read(rt: HostRuntime) -> Result<(), Fail> {
    for (text, len, toi, md5) in [(TEXT1, 282, 5, None), (TEXT2, 321, 1, Some(HELLO_MD5))] {
        let said = Says {
            expires: 3_900_000_000,
            complete: false,
            toi,
            location: b"hello.txt",
            length: 5,
            symbol: 1400,
            scheme: Scheme::NoCode { max_block: 64 },
            md5,
        };
        assert!(rt;
            text.len() == len && is_read_as(rt.alloc(), text, &said)?,
            "{text}"
        );
    }
    Ok(())
}

/// Whether Complete is said by this value, where the text is one.
fn is_complete(alloc: Global, value: &str) -> Result<Option<bool>, Memory> {
    let text = format!(in alloc; "<FDT-Instance Expires='1' Complete='{value}'/>")?;
    match read_fdt(alloc, text.as_bytes())? {
        Ok(fdt) => Ok(Some(fdt.complete)),
        Err(_) => Ok(None),
    }
}

#[test]
fn complete_is_true_or_1(rt: HostRuntime) -> Result<(), Fail> {
    for (value, complete) in [
        ("true", true),
        ("1", true),
        ("&#49;", true),
        ("", false),
        ("True", false),
        ("1 ", false),
    ] {
        assert!(rt;
            is_complete(rt.alloc(), value)? == Some(complete),
            "{value}"
        );
    }
    Ok(())
}

/// The attributes of FDT-Instance in RFC 3926 section 3.4.2 and TS 26.346 section 7.2.10, and others that a schema
/// with any attribute lets in.
const ROOT_ATTRIBUTES: [&str; 13] = [
    " Expires=\"4294967295\"",
    " Complete='true'",
    "\tContent-Type=\"text/plain; a='&quot;'\"",
    " Content-Encoding=\"\"",
    "\nFEC-OTI-FEC-Encoding-ID = \"0\"",
    " FEC-OTI-FEC-Instance-ID=\"0\"",
    " FEC-OTI-Maximum-Source-Block-Length=\"64\"",
    " FEC-OTI-Encoding-Symbol-Length=\"1400\"",
    " FEC-OTI-Max-Number-of-Encoding-Symbols=\"255\"",
    " FEC-OTI-Scheme-Specific-Info=\"AAEBAQ==\"",
    " mbms2008:FullFDT=\"true\"",
    " xmlns=\"urn:IETF:metadata:2005:FLUTE:FDT\"",
    " xsi:schemaLocation=\"a?b&c\"",
];

/// The attributes of File there, of which those of the FEC go before those of FDT-Instance.
const FILE_ATTRIBUTES: [&str; 17] = [
    " Content-Location=\"http://example.com/&#x20AC;?a=&lt;&amp;b='\"",
    " TOI=\"2\"",
    " Content-Length=\"400\"",
    "\r\nTransfer-Length\t=\n'400'",
    " Content-Type=\"text/html\"",
    " Content-Encoding=\"\"",
    " Content-MD5=\"XUFAKrxLKna5cZ2REBfFkg==\"",
    " FEC-OTI-FEC-Encoding-ID=\"1\"",
    " FEC-OTI-FEC-Instance-ID=\"0\"",
    " FEC-OTI-Maximum-Source-Block-Length=\"100\"",
    " FEC-OTI-Encoding-Symbol-Length=\"4\"",
    " FEC-OTI-Max-Number-of-Encoding-Symbols=\"200\"",
    " FEC-OTI-Scheme-Specific-Info=\"AAEBBA==\"",
    " mbms2009:Decryption-KEY-URI=\"http://example.com/?a&b\"",
    " mbms2012:FEC-Redundancy-Level=\"20\"",
    " mbms2012:File-ETag='\"1\"'",
    " x:TOI=\"7\"",
];

/// Appends the attributes, in their order or the last first.
fn push_attributes(text: &mut String, attributes: &[&str], reversed: bool) -> Result<(), Memory> {
    if reversed {
        for attribute in attributes.iter().rev() {
            text.push_str(attribute)?;
        }
    } else {
        for attribute in attributes {
            text.push_str(attribute)?;
        }
    }
    Ok(())
}

/// A text with all the attributes, whose elements FDT-Instance and File have this prefix, and with the elements that
/// may stand in them.
fn schema_text(alloc: Global, prefix: &str, reversed: bool) -> Result<String, Memory> {
    let mut root = String::new(alloc);
    push_attributes(&mut root, &ROOT_ATTRIBUTES, reversed)?;
    let mut file = String::new(alloc);
    push_attributes(&mut file, &FILE_ATTRIBUTES, reversed)?;
    Ok(format!(in alloc;
        "<!-- <File/> --><{prefix}FDT-Instance{root}><sv:delimiter>0</sv:delimiter><{prefix}File{file}><mbms2007:Cache-Control><mbms2007:Expires>4294967295</mbms2007:Expires></mbms2007:Cache-Control><Group>a & b</Group><MBMS-Session-Identity>5</MBMS-Session-Identity><File TOI='9' TOI='9'/></{prefix}File><mbms2009:Base-URL-1>http://example.com/</mbms2009:Base-URL-1><MBMS-Session-Identity-Expiry value='4294967295'>5</MBMS-Session-Identity-Expiry></{prefix}FDT-Instance>"
    )?)
}

#[test]
fn every_attribute_of_the_schema_is_read_or_skipped(rt: HostRuntime) -> Result<(), Fail> {
    let said = Says {
        expires: 4_294_967_295,
        complete: true,
        toi: 2,
        location: "http://example.com/\u{20ac}?a=<&b='".as_bytes(),
        length: 400,
        symbol: 4,
        scheme: Scheme::Raptor { z: 1, n: 1, al: 4 },
        md5: Some(HELLO_MD5),
    };
    for (prefix, reversed) in [
        ("", false),
        ("fdt:", true),
        ("\u{e9}.:b:", false),
        ("_:", true),
    ] {
        let text = schema_text(rt.alloc(), prefix, reversed)?;
        assert!(rt; is_read_as(rt.alloc(), text.as_str(), &said)?, "{text}");
    }
    Ok(())
}

/// What is written for what is read of the text, where it is one whose entries are all described.
fn rewritten(alloc: Global, text: &str) -> Result<Option<Vec<u8>>, Memory> {
    match read_fdt(alloc, text.as_bytes())? {
        Ok(fdt) if is_described(&fdt) => Ok(Some(write_fdt(alloc, &fdt)?)),
        _ => Ok(None),
    }
}

#[test]
fn what_is_read_is_written(rt: HostRuntime) -> Result<(), Fail> {
    let raptor = TEXT1.replace(
        rt.alloc(),
        "\"0\" FEC-OTI-Maximum-Source-Block-Length=\"64\" FEC-OTI-Encoding-Symbol-Length=\"1400\"",
        "\"1\" FEC-OTI-Encoding-Symbol-Length=\"1\" FEC-OTI-Scheme-Specific-Info=\"AAEBAQ==\"",
    )?;
    let escaped = TEXT2.replace(
        rt.alloc(),
        "hello.txt",
        "&amp;&lt;&gt;&quot;&apos;&#1;&#9;&#31; \u{e9}/\u{20ac}",
    )?;
    let complete = TEXT1.replace(rt.alloc(), "00\">", "00\" Complete=\"true\">")?;
    for text in [
        TEXT1,
        TEXT2,
        raptor.as_str(),
        escaped.as_str(),
        complete.as_str(),
    ] {
        let written = rewritten(rt.alloc(), text)?.ok_or("it is a text")?;
        assert!(rt; written.as_slice() == text.as_bytes(), "{text}");
    }
    let without = TEXT1.replace(rt.alloc(), " TOI=\"5\"", "")?;
    assert!(rt; rewritten(rt.alloc(), without.as_str())?.is_none());
    Ok(())
}
