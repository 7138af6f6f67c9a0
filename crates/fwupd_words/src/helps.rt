//! The text below the help of each subcommand.

/// The text below the help of `answer`.
pub(crate) const ANSWER_HELP: &str = "\
Examples:
  printf '010908C8008002\\n' | fwupd answer 9
                                                 prints 010809C000000200090100
  printf '020908C8008002\\n' | fwupd answer 9        prints drop Version
  printf '7E0107010908C80080020EB27E\\n' | fwupd answer --serial 9
                                       prints 7E010B010809C0000002000901008B697E

With --serial a line is any number of bytes of a serial line, on which packets
are DSP0253 frames. A frame may go on in the next line. Each packet whose frame
ends in the line prints a line: the frame of its answer, or 'drop' and the
cause. A line in which no frame ends prints nothing, and what is no frame, or
has a wrong check sequence, is skipped. A line that isn't digits prints
'drop Hex', and the frame goes on after it.

Causes of a drop. The first that holds is printed:
  Hex          the line isn't an even number of hexadecimal digits
  Short        less than 4 bytes
  Version      the low half of byte 0 isn't 1
  Empty        no byte after the header
  TooLong      more than 64 bytes after the header
  Destination  byte 1 isn't EID
  NotWhole     SOM or EOM is clear: the packet isn't a whole message
  StartNumber  the packet's sequence number isn't 0
  NotRequest   TO is clear
  Type         the message type is neither 0x00 (control) nor 0x01 (PLDM)
  Message      the message isn't a request that gets an answer

Limits: a run reads at most 16777216 bytes, with --serial 1099511627776. The
next byte ends it with 'fwupd: input'.

Status: 0; 1 if standard error says 'fwupd: input', 'fwupd: output' or
'fwupd: memory'; 2 for wrong usage.";

/// The text below the help of `inspect`.
pub(crate) const INSPECT_HELP: &str = "\
Example:
  fwupd inspect examples/two-records.fwpkg
  fwupd inspect --digest --json examples/two-records.fwpkg

--digest adds a line 'image N sha256 HEX' for each component, with --json the
member 'sha256'. HEX is in lower case, as sha256sum prints it.

Faults of a package. The first that holds is printed:
  Short         fewer bytes than the fixed part of a header
  Identifier    the identifier isn't that of this format
  Revision      the header revision isn't 1
  HeaderSize    the header is longer than the file, or its parts don't end where
                it does
  BitmapLength  the bitmap's bit length is 0, not a multiple of 8, or less than
                the number of components
  RecordLength  a record's length isn't the sum of its parts
  Checksum      the header's checksum isn't that of the bytes before it
  ImageRange    a component's image goes past the file's end

Limits: the file's path is UTF-8 text. Of a plain file no more than 65535 bytes
are read. A pipe is read whole, and with --digest each file, and has to fit into
memory.

Status: 0; 1 if standard error says 'fwupd: package: ' and a fault,
'fwupd: FILE: unreadable', 'fwupd: output' or 'fwupd: memory'; 2 for wrong
usage.";

/// The text below the help of `replay`.
pub(crate) const REPLAY_HELP: &str = "\
Example:
  fwupd replay examples/one.config examples/update.schedule

CONFIG has these lines. Words are one space apart; - is the empty text, or no
bytes; empty lines, and lines that begin with #, are skipped:
  agent EID UUID           the update agent, first; an EID is 8 to 254
  unit BYTES               the transmission unit of the network, 64 or 128: the
                           most bytes of a packet's body. It follows the agent's
                           line; without it the unit is 64
  device EID UUID          a device, at most 16; these lines follow it:
    descriptor TYPE HEX    four digits, and data; at most 246 bytes for a device
    component CLASS IDENT INDEX STAMP TEXT HEX
                           a component with the image that runs; 1 to 3 for a
                           device
  package PATH             a package's file; these lines are last, and count
                           from 1

SCHEDULE, a step a line:
  tick [N]                   a unit of time passes, or N, 1 to 1000; all nodes
                             count a tick in each
  miss EID ..                a unit passes; these nodes, 1 to 17, miss its tick,
                             and all others count it
  deliver PAIR NUMBER NODE   packet NUMBER between the agent and device PAIR is
                             delivered to NODE
  start EID PACKAGE          the operator starts a device's update with a
                             package
  cancel EID                 the operator cancels the update
  activate EID               the operator has the device activate what it
                             applied
  verdict EID WORD           verify-ok, verify-fail, apply-ok or apply-fail, for
                             the image written
  restart EID                the agent or a device restarts, and is deaf for
                             40 ticks
  sel HEX                    a command of the event log and its data, at most
                             64 bytes

Faults of a line. The first that holds is printed:
  Directive, Fields, Order, Number, Hex, Range, Duplicate, Limit; Missing at the
  line after the last

Why a step isn't taken; the report is then of the world before it:
  NoSuchNode, NoSuchPacket, Dead (sent more than 8 units ago), Memory, or
  Refused: and NoSuchPackage, Busy, NotReady, NotNow, ClockEnd, ClockSlow

The report has the units that passed; each node, and whether it hears; for a
device its state, that of the agent's session with it, and how many packets were
sent between the two; the images that run, with size and first bytes; the event
log's records and last answer; and what was applied, recorded and activated, in
order.

--trace writes the packets that each step sent after it, and --sel the log's
records; both are as in 'fwupd run --help'. The report is the same with them and
without.

--store begins with the images that 'fwupd run --store' has left there. The
folder is only read: what the schedule activates isn't kept. Its faults are
those of 'fwupd run --help', and so is --image.

Status: 0; 1 if standard error says 'fwupd: PATH: line N: FAULT',
'fwupd: package: FAULT', 'fwupd: step N: FAULT', 'fwupd: FILE: unreadable',
'fwupd: store: EID: FAULT', 'fwupd: trace', 'fwupd: sel', 'fwupd: output' or
'fwupd: memory'; 2 for wrong usage.";

/// The text below the help of `run`.
pub(crate) const RUN_HELP: &str = "\
Examples:
  fwupd run examples/one.config .
  fwupd run --check examples/one.config . && echo updated
  fwupd run --quiet --trace out/packets examples/one.config .
  fwupd run --loss 20 --delay 3 --seed 7 --record out/kept examples/one.config .
  fwupd run --store out/store examples/one.config .
  fwupd run --package 9=1 examples/one.config .
  fwupd run --image 16/10-1=run.image board.config sockets

CONFIG and the report are those of 'fwupd replay --help'.

If standard error is a terminal, it shows the progress of each device that
loads an image. --trace writes a line for each packet: the turn, the device,
to-device or to-agent, and the packet in hexadecimal digits; with --trace-format
text what each packet says, with its number, which 'deliver' of a schedule
takes; with pcap a capture, as Linux makes it on an MCTP interface, in which a
turn is a second. --sel writes the event log's records at the end, 16 bytes
each, for 'fwupd sel': until they are whole FILE stays as it is, also if the run
is interrupted. --record writes a line for each step, as a schedule:
'fwupd replay CONFIG FILE' then prints the same report.

--store makes images last: each that is activated is a file in STORE/EID, which
is made, and the text STORE/EID/active says which of them run. A run begins with
what the runs before it have left, where they left any, in the place of CONFIG's
images. STORE/history has the report's lines of what was applied, recorded and
activated in all runs: those of a turn are on the disk before the next.

--image EID/CLASS-IDENT=PATH puts the bytes of the file PATH in the place of
CONFIG's image of the component CLASS IDENT of the device EID, whose stamp and
version stay. All three are decimal numbers. If PATH is -, standard input is
read. It may be given 48 times, once for each component. Its faults are
'component EID/CLASS-IDENT: none' if CONFIG has no such component, and
'PATH: Size' if the file has more than 1048576 bytes.

--loss, --duplicate and --delay make the links bad on purpose. A packet that is
lost never comes; one that comes twice is late each time by chance; and one that
is late is held back for 0 to N turns.

--package N updates each device with package N of CONFIG, the first if it isn't
given. --package EID=N updates the device EID with package N, and chooses that
device as --device EID does. N may be given once, and EID=N once for each EID.

With --device the run is that of a CONFIG which has only these devices, in the
order of CONFIG: no socket and no store of another device is opened.

Faults: 'device EID: none' if CONFIG has no such device, with the least EID;
'package: none' if CONFIG names fewer packages; 'socket: EID' if
FOLDER/EID.sock can't be made, or is there already; after the report,
'edge: Frame' if a socket failed, 'edge: Step' at the end of the clock, and
'trace', 'sel', 'record' or 'history' if that file can't be written. If it can't
be made, or is one that is read, the same, and nothing is run. So it is with
'store: EID: damaged' if 'active' isn't as it was written, or an image that it
names; 'store: EID: foreign' if it names a component that CONFIG doesn't have;
and 'store: EID: unreadable' if the folder can't be read or made: nothing of it
is touched. With --check, after the report, 'session EID: WORD' of the sessions
that aren't Done, in configured order, with commas between them: the cause of a
failure, or the state.

Limits: 80000 turns of one tick each. Three images of 1 MiB take about 66000.

Status: 0; 1 if standard error says 'fwupd: ' and a fault, one of these or of
'replay'; 2 for wrong usage; 3 for the fault of --check if each session that
isn't Done has NoRecord or NothingToUpdate.";

/// The text below the help of `soak`.
pub(crate) const SOAK_HELP: &str = "\
Example:
  fwupd soak --runs 100 --seed 7 --loss 20 --duplicate 10 --delay 3 \\
      examples/one.config

CONFIG is that of 'fwupd replay --help', and --image, --loss, --duplicate and
--delay are those of 'fwupd run --help'. A run begins with all devices as CONFIG
and --image say. The operator starts their updates, each with some package, and
has them activate. By chance the agent or a device restarts, an update is
cancelled, a packet comes again, a verdict is bad, and a call of a device's bank
fails. It ends when each session is Done or Failed and the operator lets it be,
after 80000 turns of one tick at most.

After each run a checker, which knows only the packages and CONFIG, looks at
what happened and at the banks: each image that a device activated is, byte for
byte, one that a package names for it; each component that the agent recorded as
applied, that device had applied with these very bytes; and each bank runs what
was activated last, or else what was configured.

In the end these lines are printed:
  runs N           the runs
  activations N    the images that devices activated
  losses N         the packets that never came
  restarts N       how often a node restarted
  longest N        the ticks of the longest update, from its start to the call
                   to activate
  violations N     the runs in which the checker found something wrong
With --json they are the members of one object.

If standard error is a terminal, it shows how many runs are made. --record
writes the steps of the first run that goes wrong, as a schedule:
'fwupd replay CONFIG FILE' shows what happened, where no call of a bank failed.
Without such a run FILE isn't made. It is written beside its place, as
FILE.N.new, N being the process's number, and is put there when it is whole.

Faults: 'soak: Violation' if the checker found something wrong; 'package: none'
if CONFIG names no package; 'record' if FILE can't be written, or is one that is
read.

Status: 0 if no run goes wrong; 1 if standard error says 'fwupd: ' and a fault,
one of these or of 'replay'; 2 for wrong usage.";

/// The text below the help of `sel`.
pub(crate) const SEL_HELP: &str = "\
Example:
  fwupd run --sel out/log examples/one.config out && fwupd sel out/log

A line has the record's identifier in hexadecimal digits, the log's time, what
happened, and of what:
  started, activated, cancelled   device EID package N
  applied                         device EID package N component N: the agent
                                  recorded it
  failed                          device EID package N cause CAUSE
Of a record that no agent made it has the identifier, the type, and the 13 bytes
after it. With --json each record is an object with the same words as members.

Status: 0; 1 if standard error says 'fwupd: sel: Size', where the size is no
multiple of 16 or is over 2048, 'fwupd: FILE: unreadable', 'fwupd: output' or
'fwupd: memory'; 2 for wrong usage.";

/// The text below the help of `build`.
pub(crate) const BUILD_HELP: &str = "\
Example:
  fwupd build my.spec my.fwpkg

SPEC has these lines. Words are one space apart; a TEXT is at most 255 bytes, of
which \\xNN is the byte with these two upper-case digits; - is the empty text, or
none; empty lines, and lines that begin with #, are skipped:
  version TEXT             the package's version, at most once, before all
                           records and components
  release TIME             its release time, in the same way: UTC, as
                           2026-11-28T04:00:00Z, or 13 bytes as DSP0240 has
                           them; without one it is zeros
  record FLAGS TEXT N ..   a record: its option flags, its set text, and its
                           components, which count from 1 and rise
  descriptor TYPE HEX      a descriptor of the record before; a TYPE is four
                           digits
  component CLASS IDENT STAMP OPTIONS METHOD TEXT PATH
                           a component, after all records; PATH is its image's
                           file

Faults of a text. The first line with one is printed, with the first fault of it
that holds:
  Directive  the line begins with none of these words
  Fields     a field is left out, or there is one too many
  Order      the line may not be here
  Number     a number isn't all digits, or a path isn't UTF-8 text
  Hex        bytes aren't an even number of hexadecimal digits, a TYPE isn't
             four, a TIME is neither a date with a time nor 13 bytes, or a
             backslash begins no \\xNN
  Range      a number is too large, a TIME isn't in the calendar, a record's
             components don't rise, or one of them isn't there
  Limit      a text is longer than 255 bytes, a record has more than 255
             descriptors, or there are more than 255 records; at the line after
             the last: the header has more than 65535 bytes, or the package more
             than 4294967295

FILE is written beside its place, as FILE.N.new, N being the process's number,
and is put there when it is whole. If that fails, FILE is as it was:
'fwupd: output'. If FILE is a symbolic link, the file that it names is replaced,
and the link stays. A folder, a device or a pipe is refused.

With --json standard output gets what 'fwupd inspect --digest --json' prints of
FILE, once it is at its place.

If standard error is a terminal, or with FWUPD_EXPLAIN=1, a build that is done
warns of a record without a descriptor, of a descriptor whose data hasn't the
length that DSP0267 gives its type, and of a component that no record uses.

Limits: paths are UTF-8 text, and the images fit into memory.

Status: 0; 1 if standard error says 'fwupd: SPEC: line N: ' and a fault,
'fwupd: PATH: unreadable', 'fwupd: output' or 'fwupd: memory'; 2 for wrong
usage.";

/// The text below the help of `plan`.
pub(crate) const PLAN_HELP: &str = "\
Examples:
  fwupd plan examples/one.config
  fwupd plan --package 2 --store out/store my.config

CONFIG is that of 'fwupd replay --help'. A device has these lines:
  device EID package N record R set TEXT WORD
      R is the first record of the package that is for the device; a dash if
      none is
  record R lacks descriptor TYPE HEX, or record R has none
      if none is: for each record the first of its descriptors that the device
      lacks, or that it has no descriptor
  component CLASS ident IDENT size SIZE stamp STAMP version TEXT active STAMP
  TEXT WORD
      a component that the device is offered, and what runs in the device;
      dashes if it has no such component

The outcome of the update:
  Update              its components are loaded, in this order
  NothingToUpdate     it fails: the record uses no component, or the device
                      takes none of them
  NoRecord            it fails: no record is for the device
  Plan:FAULT          it fails: two components of the record have one class and
                      ident (DuplicateComponent), there are more than 8
                      (TooManyComponents), an image has more than 1048576 bytes
                      (ImageTooLarge), or the set text or a version more than
                      200 (TextTooLong)

The outcome of a component:
  update              it is loaded
  force               the device declines it, as its stamp isn't higher, and
                      option bit 0 forces it
  skip identical      its stamp is that of the image that runs
  skip lower          its stamp is lower
  skip unsupported    the device has no such component
A stamp FFFFFFFF is compared with none: the component's option bit 1 is clear,
or it is its stamp.

--store begins with the images that 'fwupd run --store' has left there, as
'fwupd replay --help' says. --image is that of 'fwupd run --help'.

Status: 0, also where an update would fail; 1 if standard error says
'fwupd: package: none', as CONFIG names fewer packages, or a fault of 'replay';
2 for wrong usage.";

/// The text below the help of `device`.
pub(crate) const DEVICE_HELP: &str = "\
Examples:
  printf 'tick 40\\nreport\\n' | fwupd device examples/one.config 9
  fwupd device --listen out --store out/store examples/one.config 9

CONFIG is that of 'fwupd replay --help'. A line of the input is one of these:
  HEX            a packet arrives
  tick [N]       the device counts a tick, or N, 1 to 1000
  verdict WORD   verify-ok, verify-fail, apply-ok or apply-fail, for the image
                 written
  restart        the device restarts, and is deaf and silent for 40 ticks
  report         prints the device's report, as one line of JSON

What is printed for it:
  HEX ..         the packets that the device sends, in order
  -              it sends none
  refused NotNow the device doesn't wait for this verdict
  fault NAME     the line can't be read: a fault of a line of
                 'fwupd replay --help'
Empty lines, and lines that begin with #, print nothing.

With --open what discovery by other software asks is answered in front of the
device, which doesn't see these packets: Get and Set Endpoint ID to EID 0, Get
MCTP Version Support of types 0 and 1, GetPLDMVersion, and GetPLDMCommands of
type 0. On a serial line it is always so.

With --auto the verdict that the device waits for is given right before a tick,
as 'fwupd run' gives it. --store and --image are those of 'fwupd run --help',
and the store is that of this device alone. --report writes at the end of the
input the device's lines of a report: its state, the images that run, and what
was applied and activated.

With --listen or --tty it is a process, whose peer is an agent. It reads no
input and prints no packets:
  --listen FOLDER  it makes the Unix socket FOLDER/EID.sock, and serves the
                   agent that connects
  --tty PATH       packets are DSP0253 frames on a serial line: PATH is a
                   terminal in raw mode, a FIFO or the name of a Unix socket
It counts a tick every MS milliseconds, which are a unit. It begins with a
restart: for 40 units it is deaf and silent. Verdicts are those of --auto. With
--ticks it ends after N units; without, it serves until it is killed.
--take-over removes FOLDER/EID.sock first if nobody listens on it, as after a
kill; with --tty it does nothing. --trace and --trace-format are those of
'fwupd run --help', of the packets that the process sends and receives.
--record writes its calls as lines, which this filter reads.

--listen and --tty exclude each other, and each of them excludes --auto and
--report. --tick, --ticks, --take-over, --trace, --trace-format and --record
need one of them.

Faults: 'device EID: none' if CONFIG has no such device; 'report', 'trace' or
'record' if that file can't be written, or is one that is read; 'socket: EID' if
FOLDER/EID.sock can't be made, or is there already; 'tty' if PATH can't be
opened; and those of 'fwupd run --store'.

Status: 0; 1 if standard error says 'fwupd: ' and a fault, one of these, of
'answer' or of 'replay'; 2 for wrong usage.";

/// The text below the help of `agent`.
pub(crate) const AGENT_HELP: &str = "\
Examples:
  printf 'start 9 1\\ntick\\nreport\\n' | fwupd agent examples/one.config
  fwupd agent --connect out --check examples/one.config

CONFIG is that of 'fwupd replay --help'. A line of the input is one of these:
  HEX                a packet arrives
  tick [N]           the agent counts a tick, or N, 1 to 1000
  start EID PACKAGE  the operator starts a device's update with a package
  cancel EID         the operator cancels the update
  activate EID       the operator has the device activate what it applied
  restart            the agent restarts, and is deaf and silent for 40 ticks
  sel HEX            a command of the event log and its data: prints the answer,
                     in digits
  report             prints the agent's report, as one line of JSON

What is printed for it:
  HEX ..             the packets that the agent sends, in order
  -                  it sends none
  refused NAME       it isn't taken: NoSuchNode, NoSuchPackage, Busy, NotReady
                     or ClockEnd
  fault NAME         the line can't be read: a fault of a line of
                     'fwupd replay --help'
Empty lines, and lines that begin with #, print nothing.

With --open what discovery by other software asks is answered in front of the
agent, as in 'fwupd device --help'. On a serial line it is always so.

With --auto each session that is ready has its device activate right before a
tick, as in 'fwupd run'. --sel is that of 'fwupd run --help'. --report writes at
the end of the input the agent's lines of a report: its sessions, the log, and
what was recorded.

With --connect or --tty it is a process, which updates each device of CONFIG
with package N, 1 if --package isn't given. It reads no input:
  --connect FOLDER  it connects to FOLDER/EID.sock, the Unix socket of each
                    device, and tries again every unit if there is none
  --tty PATH        packets are DSP0253 frames on a serial line: PATH is a
                    terminal in raw mode, a FIFO or the name of a Unix socket
It counts a tick every MS milliseconds, which are a unit. It begins with a
restart: for 40 units it is deaf and silent. Devices activate as with --auto. It
ends when each session is Done or Failed, with --ticks after N units at the
latest, and prints the agent's lines of a report, with --json as one line of
JSON. With --check it fails after the report if a session isn't Done.

--store makes what it records and its event log last, in STORE/agent, which is
made: the text 'active' has both as they are at the end of each call that
changed them, and the next process goes on with them. The text 'packages' says
which packages records are of: CONFIG may name more packages later, after these.
--trace, --trace-format and --record are those of 'fwupd device --help'.

--connect and --tty exclude each other, and each of them excludes --auto and
--report. --tick, --ticks, --package, --store, --check, --json, --trace,
--trace-format and --record need one of them.

Faults: 'sel', 'report', 'trace' or 'record' if that file can't be written, or
is one that is read; 'package: none' if CONFIG names fewer packages; 'tty' if
PATH can't be opened; 'store: EID: FAULT', with the agent's EID, for STORE/agent
as in 'fwupd run --help', with 'foreign' if its packages aren't the first ones
of CONFIG, or 'unwritable' if it can't be written; with --check,
'session EID: WORD' of the sessions that aren't Done, as in 'fwupd run --help'.

Status: 0; 1 if standard error says 'fwupd: ' and a fault, one of these, of
'answer' or of 'replay'; 2 for wrong usage; 3 as in 'fwupd run --help'.";

/// The text below the help of `decode`.
pub(crate) const DECODE_HELP: &str = "\
Examples:
  printf '010908C8008002\\n' | fwupd decode
  fwupd run --trace out/packets.pcap --trace-format pcap examples/one.config \\
      out > out/report
  fwupd decode out/packets.pcap

FILE is a capture, if it begins with a capture's magic number, or has a packet a
line:
  DIGITS                        in hexadecimal digits
  TURN EID to-device DIGITS     as a trace of digits has it, or with to-agent:
                                EID is the device

A line is TURN EID NUMBER SRC > DST tag T WHAT, as 'run --trace-format text'
writes it. TURN is - if it isn't known, and the seconds of a record of a
capture. EID is the device of the pair. If it isn't known, the source of the
pair's first packet is the agent.

An input that can't be read gets the line 'drop CAUSE':
  Fields    neither DIGITS nor the four words of a trace
  Number    the turn isn't a number below 4294967296, or the device isn't one
            below 256
  Hex       not an even number of hexadecimal digits
  Short     less than 4 bytes
  Pairs     the first packet of a further pair, after 1024 pairs
  LinkType  the capture's link type isn't 113, Linux cooked mode
  Protocol  the record isn't an MCTP packet
  Cut       the capture ends in its header or in a record, or a record has less
            than the packet

Limits: of standard input a run reads at most 16777216 bytes. FILE has to fit
into memory, and so has the text.

Status: 0; 1 if standard error says 'fwupd: input', 'fwupd: FILE: unreadable',
'fwupd: output' or 'fwupd: memory'; 2 for wrong usage.";

/// The text below the help of `status`.
pub(crate) const STATUS_HELP: &str = "\
Examples:
  fwupd status --store out/store examples/board/board.config
  fwupd status --json examples/one.config

CONFIG is that of 'fwupd replay --help'. Its packages aren't read. A device has
these lines:
  device EID
  component CLASS ident IDENT size SIZE stamp STAMP version TEXT sha256 HEX
      the image that runs: its length in bytes, its stamp in hexadecimal digits,
      its version, and its SHA-256, as 'fwupd inspect --digest' prints that of a
      package's image

--store begins with the images that 'fwupd run --store' has left there, as
'fwupd replay --help' says. Without it CONFIG's images run. --image is that of
'fwupd run --help'.

Status: 0; 1 if standard error says a fault of CONFIG or of a store, as in
'fwupd replay --help', 'fwupd: output' or 'fwupd: memory'; 2 for wrong usage.";
