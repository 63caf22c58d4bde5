//! What `--help` says.

/// The forms of words, the lines of a session (written by `tools/write_command_docs.py`), and the statuses.
pub(crate) const HELP: &str = "ccbase FILE run
ccbase FILE verify
ccbase FILE big SEED SIZE
ccbase FILE sites
ccbase --help, ccbase -h, ccbase help
ccbase --version

run reads a session from standard input, runs it on the base in FILE and FILE.objects, and writes the replies to
standard output. FILE is locked meanwhile. Absent files are created, as an empty base.

verify runs the script of every live object again, on the inputs of its configuration record. It writes `sound N` if
all N live objects have the outputs that their scripts give, else `unsound ROW`, the row of the first that has not. It
changes nothing and reads no input.

big runs a large session, generated from SEED and SIZE, on FILE, and writes a summary of its replies: commands,
refused, units, bytes of objects, and a digest. SEED is below 2^64 and SIZE from 1 to 1000. It reads no input.

sites reads from standard input what happens at up to 64 replicas that exchange packets, one event a line, and writes
a reply to each. It is a model of replicas on its own: FILE is neither opened nor created.

FILE MUST BE A BASE, OR ABSENT. Any other file is treated as an empty base, and the first commit OVERWRITES IT. Before
that a line on standard error says how many of its bytes are not rows. There may be no such line if FILE begins with a
byte 0 or 1, as some pictures and videos do. To look first, run an empty session, which writes nothing into an
existing FILE:

    ccbase FILE run < /dev/null

The lines of a session. After save and setcs a text follows, each line of it begun by |
  phase                           begins a phase, after all lanes of the previous one have ended
  lane NAME                       begins a lane; the lanes of a phase run concurrently
  mkview V                        makes a view with the default config spec
  rmview [-force] V               removes a view, with its private files and references
  setcs V                         sets the config spec to the body
  catcs V                         prints the config spec
  mkelem V [-nco] P               makes a file element and checks it out
  mkdir V [-nco] P                makes a directory element and checks it out
  checkout V [-unreserved] P      checks out the selected version and reserves its branch
  save V P                        saves the body as the text of a checked-out file, or as a view-private file
  checkin V [-identical] P        checks in the next version of the branch
  uncheckout V P                  cancels a checkout and discards what was saved in it
  rmname V P                      removes a name from a checked-out directory
  mv V P NAME                     renames a name within a checked-out directory
  rm V P                          removes a view-private file
  mkbrtype B                      makes a branch type
  mkbranch V [-nco] B P           makes a branch at the selected version and checks it out
  mklbtype L                      makes a label type
  mklabel V [-replace] L P        labels the selected version
  mklabel V [-replace] -config P L
                                  labels every version that the record of the object at P lists
  rmlabel V L P                   removes a label from an element
  mkarrow V P VERSION             records that VERSION was merged into the selected version
  findmerge V P -fversion .../B/LATEST
                                  lists what is on branch B and not merged yet
  ls V [P]                        lists a directory: the selected versions, and the rules that select them
  cat V P                         prints a text as the view sees it
  cat V P@@VERSION                prints the text of any version
  describe V P                    prints an element, its selected version and the labels
  lsvtree V P                     prints all versions, branch by branch, with their labels
  lshistory V P                   prints the events of an element, newest first
  clearmake V [-f P] [-J N] [-k] [-u] [-V] [NAME=TEXT ..] [GOAL ..]
                                  builds the goals
  lsdo V                          lists the objects that the view references, with reference counts
  catcr V P                       prints the configuration record of an object
  diffcr V P W Q                  compares two configuration records
  covers W V P                    tells whether W sees all that an object of V was made from
  rmdo V P                        drops the view's reference to an object, which stays in the base
  scrub AGE                       removes objects without references that are AGE seconds old or more

Ends with the status
  0  every command was carried out, and every unit of every build was made; or the base is sound
  1  a command was refused, or a unit failed or was blocked; or the base is not sound
  2  the arguments are none of the forms above
  3  the text is not a session
  4  the journal is damaged: FILE has a frame that is not a row, or a row that is not valid after those before it
  5  the input failed
  6  the output failed
  7  the disk failed
  8  memory ran out; or the system gave no random numbers, and a line on standard error says so
  9  the text has more than 16,777,216 bytes
Unless it is 0, 1 or 8, a line on standard error says why.
";
