//! Diagnostics for graph files that are not read.

use sdf_document::{CoefficientFile, ReadFault, read_document};
use sdf_why::document_text;
use std::alloc::Global;
use std::test::Fail;
use test_texts::row_says;

/// A graph file, and the line of its fault followed by its diagnostic.
struct Row {
    graph: &'static str,
    told: &'static str,
}

static ROWS: [Row; 26] = [
    Row {
        graph: "format = 1\nlink = []\n[[actor]]\nname = \"half\"\nkind = \"fir\"\nup = 147\nshift = 0\ntaps = [1]\n",
        told: "28 KitValue actor 0 key up\n  \
            actor 0 is \"half\", a fir\n  up = 147, needs 1..64\n",
    },
    Row {
        graph: "format = 1\nlink = []\n[[actor]]\nname = \"half\"\nkind = \"fir\"\nshift = 0\ntaps = []\n",
        told: "28 KitValue actor 0 key taps\n  \
            actor 0 is \"half\", a fir\n  taps = a list of 0, needs 1..1024 values of -32768..32767\n",
    },
    Row {
        graph: "format = 1\nlink = []\n[[actor]]\nname = \"t\"\nkind = \"table\"\noffset = 0\nfile = \"a.toml\"\n",
        told: "28 KitValue actor 0 key file\n  \
            actor 0 is \"t\", a table\n  file = \"a.toml\", needs 1..65536 values of 32 bits\n  \
            \"a.toml\": values = a list of 0, needs 1..65536\n",
    },
    Row {
        graph: "format = 1\nlink = []\n[[actor]]\nname = \"h\"\nkind = \"fir\"\nshift = 0\nfile = \"c.toml\"\n",
        told: "28 KitValue actor 0 key file\n  \
            actor 0 is \"h\", a fir\n  file = \"c.toml\", needs 1..1024 values of -32768..32767\n  \
            \"c.toml\": values[2] = 40000, needs -32768..32767\n",
    },
    Row {
        graph: "format = 1\nlink = []\n[[actor]]\nname = \"t\"\nkind = \"table\"\noffset = 0\nfile = \"c.toml\"\n",
        told: "28 KitValue actor 0 key file\n  \
            actor 0 is \"t\", a table\n  file = \"c.toml\", needs 1..65536 values of 32 bits\n  \
            \"c.toml\": values[3] = -2147483649, needs -2147483648..2147483647\n",
    },
    Row {
        graph: "format = 2\nlink = []\n[[actor]]\nname = \"d\"\nkind = \"deal\"\nways = 17\nprocessor = 3\n",
        told: "28 KitValue actor 0 key ways\n  \
            actor 0 is \"d\", a deal\n  ways = 17, needs 2..16\n",
    },
    Row {
        graph: "format = 2\nlink = []\n[[actor]]\nname = \"c\"\nkind = \"clip\"\nleast = 1\ngreatest = 0\n",
        told: "28 KitValue actor 0 key greatest\n  \
            actor 0 is \"c\", a clip\n  greatest = 0, needs least..32767\n",
    },
    Row {
        graph: "format = 1\nlink = []\n[[actor]]\nname = \"i\"\nkind = \"input\"\nchannel = 0\nprocessor = 16\n",
        told: "28 KitValue actor 0 key processor\n  \
            actor 0 is \"i\", an input\n  processor = 16, needs 0..15 or absent\n",
    },
    Row {
        graph: "format = 1\nlink = []\n[[actor]]\nname = \"i\"\nkind = \"gain\"\n",
        told: "52 MissingKey actor 0 key gain\n  \
            actor 0 is \"i\", a gain\n  gain needs -32768..32767\n",
    },
    Row {
        graph: "format = 1\nlink = []\n[[actor]]\nname = \"i\"\nkind = \"gain\"\ngain = 1.5\n",
        told: "53 WrongType actor 0 key gain\n  \
            actor 0 is \"i\", a gain\n  gain = a float, needs a whole number, -32768..32767\n  \
            a half is gain = 1, shift = 1\n",
    },
    Row {
        graph: "format = 1\nlink = []\n[[actor]]\nname = \"h\"\nkind = \"fir\"\nfile = \"a.toml\"\nshift = 0\n\
            taps = [1]\n",
        told: "51 UnknownKey actor 0 key file\n  \
            actor 0 is \"h\", a fir\n  file = \"a.toml\", needs 1..1024 values of -32768..32767\n  \
            file stands beside taps\n  fir: up 1..64 (1), down 1..64 (1), shift 0..15, taps or file: 1..1024 values of \
            -32768..32767\n",
    },
    Row {
        graph: "format = 1\nlink = []\n[[actor]]\nname = \"\\u001b\"\nkind = \"fork\"\n",
        told: "54 BadName actor 0 key name\n  \
            actor 0 is \"\\u{1b}\", a fork\n  name = \"\\u{1b}\"\n  \
            a name has 1 to 32 of A-Z a-z 0-9 _ -, the first a letter\n",
    },
    Row {
        graph: "format = 1\nlink = []\nactor = [{ name = \"a\", kind = \"fork\", ways = 2 },\n\
            { name = \"a\", kind = \"add\", ways = 2 }]\n",
        told: "55 NameTwice actor 1\n  \
            actor 1 is \"a\", an add\n  actor 0 is \"a\", a fork\n",
    },
    Row {
        graph: "format = 1\nlink = []\n[[actor]]\nname = \"d\"\nkind = \"deal\"\n",
        told: "56 UnknownKind actor 0\n  \
            actor 0 is \"d\", a deal\n  format = 1, needs 2 for deal\n",
    },
    Row {
        graph: "format = 1\nactor = [{ name = \"a\", kind = \"fork\", ways = 2 }]\n\
            link = [{ from = \"a\", to = \"a:16\" }]\n",
        told: "57 BadPort link 0 key to\n  \
            link 0 is a:0 -> a:16\n  to = \"a:16\", needs NAME or NAME:PORT, a port of 0..15\n",
    },
    Row {
        graph: "format = 1\nlink = []\n[[actor]]\nname = \"d\"\nkind = \"gian\"\n",
        told: "56 UnknownKind actor 0\n  \
            actor 0 is \"d\", a gian\n  did you mean \"gain\"?\n",
    },
    Row {
        graph: "format = 1\nlink = []\n[[actor]]\nname = \"d\"\nkind = \"resampler\"\n",
        told: "56 UnknownKind actor 0\n  \
            actor 0 is \"d\", a resampler\n  did you mean \"fir\"?\n  `sdfw resample` writes a whole \
            converter\n  kinds: input, output, fir, decimate, interpolate, add, fork, gain, delay, \
            table, deal, gather, clip and offset\n",
    },
    Row {
        graph: "format = 1\nlink = []\n[[actor]]\nname = \"d\"\nkind = \"lowpass\"\n",
        told: "56 UnknownKind actor 0\n  \
            actor 0 is \"d\", a lowpass\n  did you mean \"fir\"?\n  `sdfw fir` prints the taps of a low-pass, \
            high-pass or band-pass\n  kinds: input, output, fir, decimate, interpolate, add, fork, gain, delay, \
            table, deal, gather, clip and offset\n",
    },
    Row {
        graph: "format = 1\nlink = []\n[[actor]]\nname = \"d\"\nkind = \"limiter\"\n",
        told: "56 UnknownKind actor 0\n  \
            actor 0 is \"d\", a limiter\n  did you mean \"clip\"?\n  format = 1, needs 2 for clip\n  \
            kinds: input, output, fir, decimate, interpolate, add, fork, gain, delay, \
            table, deal, gather, clip and offset\n",
    },
    Row {
        graph: "format = 1\nlink = []\n[[actor]]\nname = \"d\"\nkind = \"gain\"\nshfit = 1\n",
        told: "51 UnknownKey actor 0 key shfit\n  \
            actor 0 is \"d\", a gain\n  shfit = 1\n  did you mean \"shift\"?\n  \
            gain: gain -32768..32767, shift 0..15\n",
    },
    Row {
        graph: "format = 1\nlink = []\n[[actor]]\nname = \"t\"\nkind = \"table\"\nfiel = \"a.toml\"\n",
        told: "51 UnknownKey actor 0 key fiel\n  \
            actor 0 is \"t\", a table\n  fiel = \"a.toml\"\n  did you mean \"file\"?\n  \
            table: offset of 32 bits, values or file: 1..65536 values of 32 bits\n",
    },
    Row {
        graph: "format = 1\nlinks = []\n",
        told: "51 UnknownKey top key links\n  \
            links = a list of 0\n  did you mean \"link\"?\n",
    },
    Row {
        graph: "format = 1\nactor = [{ name = \"a\", kind = \"fork\", ways = 2 }]\n\
            link = [{ form = \"a\", to = \"a\" }]\n",
        told: "51 UnknownKey link 0 key form\n  \
            link 0 is ? -> a:0\n  form = \"a\"\n  did you mean \"from\"?\n",
    },
    Row {
        graph: "format = 1\nactor = [{ name = \"half\", kind = \"gain\", gain = 1, shift = 1 }, { name = \"have\",\n\
            kind = \"fork\", ways = 2 }]\nlink = [{ from = \"hale:0\", to = \"have\" }]\n",
        told: "57 BadPort link 0 key from\n  \
            link 0 is hale:0 -> have:0\n  from = \"hale:0\", needs NAME or NAME:PORT, a port of 0..15\n  \
            did you mean \"half\"?\n",
    },
    Row {
        graph: "format = 3\n",
        told: "50 Format top\n  \
            format = 3, needs 1 or 2\n",
    },
    Row {
        graph: "format = 1\nlink = []\n[[actor]]\nname = \"t\"\nkind = \"table\"\noffset = 0\nfile = \"b.toml\"\n",
        told: "58 NoFile file b.toml\n  \
            actor 0 is \"t\", a table\n",
    },
];

/// Lists with a value that does not fit, values of a wrong type, and words that are not kinds of the file's format.
static OTHERS: [Row; 24] = [
    Row {
        graph: "format = 1\nlink = []\n[[actor]]\nname = \"h\"\nkind = \"fir\"\nshift = 0\ntaps = [1, 40000]\n",
        told: "28 KitValue actor 0 key taps\n  \
            actor 0 is \"h\", a fir\n  taps = a list of 2, needs 1..1024 values of -32768..32767\n  \
            taps[1] = 40000, needs -32768..32767\n",
    },
    Row {
        graph: "format = 1\nlink = []\n[[actor]]\nname = \"t\"\nkind = \"table\"\noffset = 0\n\
            values = [-2147483649, 2147483648]\n",
        told: "28 KitValue actor 0 key values\n  \
            actor 0 is \"t\", a table\n  values = a list of 2, needs 1..65536 values of 32 bits\n  \
            values[0] = -2147483649, needs -2147483648..2147483647\n",
    },
    Row {
        graph: "format = 1\nactor = [{ name = \"a\", kind = \"delay\", length = 1 }]\n\
            link = [{ from = \"a\", to = \"a\", initial = [0, 2147483648] }]\n",
        told: "28 KitValue link 0 key initial\n  \
            link 0 is a:0 -> a:0\n  initial = a list of 2\n  \
            initial[1] = 2147483648, needs -2147483648..2147483647\n",
    },
    Row {
        graph: "format = 1\nlink = []\n[[actor]]\nname = \"h\"\nkind = \"fir\"\nshift = 0\ntaps = [1, 2.5]\n",
        told: "53 WrongType actor 0 key taps\n  \
            actor 0 is \"h\", a fir\n  taps = a list of 2, needs a list of whole numbers, 1..1024 values of \
            -32768..32767\n  taps[1] = a float, needs a whole number\n",
    },
    Row {
        graph: "format = 1\nlink = []\n[[actor]]\nname = \"h\"\nkind = \"fir\"\nshift = 0\ntaps = [40000, 2.5]\n",
        told: "53 WrongType actor 0 key taps\n  \
            actor 0 is \"h\", a fir\n  taps = a list of 2, needs a list of whole numbers, 1..1024 values of \
            -32768..32767\n  taps[1] = a float, needs a whole number\n",
    },
    Row {
        graph: "format = 1\nlink = []\n[[actor]]\nname = \"h\"\nkind = \"fir\"\nshift = 0\ntaps = 3\n",
        told: "53 WrongType actor 0 key taps\n  \
            actor 0 is \"h\", a fir\n  taps = 3, needs a list of whole numbers, 1..1024 values of -32768..32767\n",
    },
    Row {
        graph: "format = 1\nactor = [{ name = \"a\", kind = \"delay\", length = 1 }]\n\
            link = [{ from = \"a\", to = \"a\", initial = [0.5] }]\n",
        told: "53 WrongType link 0 key initial\n  \
            link 0 is a:0 -> a:0\n  initial = a list of 1, needs a list of whole numbers\n  \
            initial[0] = a float, needs a whole number\n",
    },
    Row {
        graph: "format = 1\nlink = []\n[[actor]]\nname = \"h\"\nkind = \"fir\"\nshift = 0\nfile = \"d.toml\"\n",
        told: "53 WrongType file d.toml key values\n  \
            actor 0 is \"h\", a fir\n  values = a list of 2, needs a list of whole numbers\n  \
            values[1] = a float, needs a whole number\n",
    },
    Row {
        graph: "format = 1\nlink = []\n[[actor]]\nname = \"i\"\nkind = \"input\"\nchannel = 0\nprocessor = \"1\"\n",
        told: "53 WrongType actor 0 key processor\n  \
            actor 0 is \"i\", an input\n  processor = \"1\", needs a whole number, 0..15 or absent\n",
    },
    Row {
        graph: "format = 1\nlink = []\n[[actor]]\nname = 3\nkind = \"fork\"\n",
        told: "53 WrongType actor 0 key name\n  \
            actor 0 is without a name, a fork\n  name = 3, needs a text in quotes\n",
    },
    Row {
        graph: "format = 1\nlink = []\n[[actor]]\nname = \"h\"\nkind = \"fir\"\nshift = 0\nfile = 3\n",
        told: "53 WrongType actor 0 key file\n  \
            actor 0 is \"h\", a fir\n  file = 3, needs a text in quotes\n",
    },
    Row {
        graph: "format = 1\nlink = []\n[[actor]]\nname = \"h\"\nkind = \"fir\"\nshift = 0\nfile = \".toml\"\n",
        told: "54 BadName actor 0 key file\n  \
            actor 0 is \"h\", a fir\n  file = \".toml\"\n  \
            a file's name has 1 to 64 of A-Z a-z 0-9 _ - ., the first no dot\n",
    },
    Row {
        graph: "format = 1\nlink = []\n[actor]\nname = \"a\"\n",
        told: "53 WrongType top key actor\n  \
            actor = a table, needs double brackets: [[actor]]\n",
    },
    Row {
        graph: "format = 1\nactor = []\n[link]\nfrom = \"a\"\n",
        told: "53 WrongType top key link\n  \
            link = a table, needs double brackets: [[link]]\n",
    },
    Row {
        graph: "format = 1\nlink = []\nactor = [1]\n",
        told: "53 WrongType actor 0 key actor\n  \
            actor 0 is without a name, of no kind\n  actor needs double brackets: [[actor]]\n",
    },
    Row {
        graph: "format = 1\nactor = [{ name = \"a\", kind = \"fork\", ways = 2 }]\nlink = [{ from = 3, to = \"a\" }]\n",
        told: "53 WrongType link 0 key from\n  \
            link 0 is ? -> a:0\n  from = 3, needs a text in quotes\n",
    },
    Row {
        graph: "format = 1\nlink = []\n[[actor]]\nname = \"h\"\nkind = \"fir\"\nup = [2.5]\nshift = 0\ntaps = [1]\n",
        told: "53 WrongType actor 0 key up\n  \
            actor 0 is \"h\", a fir\n  up = a list of 1, needs a whole number, 1..64\n",
    },
    Row {
        graph: "format = 1.0\n",
        told: "53 WrongType top key format\n  \
            format = a float, needs a whole number\n",
    },
    Row {
        graph: "format = 1\nrate = 0\n",
        told: "28 KitValue top key rate\n  \
            rate = 0, needs 1..4294967295\n",
    },
    Row {
        graph: "format = 1\nrate = 44.1\n",
        told: "53 WrongType top key rate\n  \
            rate = a float, needs a whole number, 1..4294967295\n",
    },
    Row {
        graph: "format = 1\nrat = 44100\n",
        told: "51 UnknownKey top key rat\n  \
            rat = 44100\n  did you mean \"rate\"?\n",
    },
    Row {
        graph: "format = 1\nlink = []\n[[actor]]\nname = \"d\"\nkind = \"gahter\"\n",
        told: "56 UnknownKind actor 0\n  \
            actor 0 is \"d\", a gahter\n  did you mean \"gather\"?\n  format = 1, needs 2 for gather\n",
    },
    Row {
        graph: "format = 2\nlink = []\n[[actor]]\nname = \"d\"\nkind = \"gahter\"\n",
        told: "56 UnknownKind actor 0\n  \
            actor 0 is \"d\", a gahter\n  did you mean \"gather\"?\n",
    },
    Row {
        graph: "format = 1\nlink = []\n[[actor]]\nname = \"d\"\nkind = \"compressor\"\n",
        told: "56 UnknownKind actor 0\n  \
            actor 0 is \"d\", a compressor\n  kinds: input, output, fir, decimate, interpolate, add, fork, gain, \
            delay, table, deal, gather, clip and offset\n",
    },
];

/// Coefficient files: one with an empty list, one with a value too wide for taps and another too wide for tables, and
/// one with a value that is not a whole number.
static FILES: [(&str, &str); 3] = [
    ("a.toml", "format = 1\nvalues = []\n"),
    (
        "c.toml",
        "format = 1\nvalues = [-32768, 32767, 40000, -2147483649]\n",
    ),
    ("d.toml", "format = 1\nvalues = [1, 0.5]\n"),
];

fn files(alloc: Global) -> Result<Vec<CoefficientFile>, Fail> {
    let mut files = Vec::new(alloc);
    for (name, text) in &FILES {
        files.push(CoefficientFile {
            name: String::from_str(alloc, name)?,
            bytes: Vec::from_slice(alloc, text.as_bytes())?,
        })?;
    }
    Ok(files)
}

/// Returns the fault of a graph file, followed by its diagnostic.
fn told(alloc: Global, graph: &[u8]) -> Result<String, Fail> {
    let files = files(alloc)?;
    let Err(ReadFault::Document(fault)) = read_document(alloc, graph, &files) else {
        return Ok(String::from_str(alloc, "it is read")?);
    };
    let told = document_text(alloc, &fault, graph, &files)?;
    Ok(format!(in alloc; "{fault}\n{told}")?)
}

/// Tests the diagnostics for faults of documents. A `document_text` that always reports refused memory fails here.
#[test]
fn faults_of_documents_are_told(rt: HostRuntime) -> Result<(), Fail> {
    for row in &ROWS {
        row_says(row.graph, told(rt.alloc(), row.graph.as_bytes()), row.told)?;
    }
    Ok(())
}

/// Tests that a diagnostic shows the value that does not fit, the type that is needed, and the kind that was meant.
#[test]
fn values_types_and_kinds_are_told(rt: HostRuntime) -> Result<(), Fail> {
    for row in &OTHERS {
        row_says(row.graph, told(rt.alloc(), row.graph.as_bytes()), row.told)?;
    }
    Ok(())
}
